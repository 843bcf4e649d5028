ghost use Rattle.std.specs.Prelude.{◌≡◌, ◌<◌, ◌↔◌, IfOk, IfErr, IfSome, IsSome, OnOk};
ghost use Rattle.poet_io.specs.Faults.{IsRaised};
ghost use Rattle.poet_io.specs.FilesState.{FilesState};
ghost use Rattle.poet_io.specs.Folder.{IsOpenedAt};
ghost use Rattle.poet_io.specs.GivenBack.{IsNotOpened};
ghost use Rattle.poet_io.specs.Uses.{NotesClose};

use crate::Source;
use std::alloc::Global;
use thiserror::Error;

/// Why a file was not opened.
#[derive(Clone, Copy, Debug, PartialEq, Eq, Error)]
pub enum OpenError {
    /// The folder tells what stands in it, and nothing stands under this name.
    #[error("there is no such file")]
    Absent,
    /// The folder failed, and counted it.
    #[error("the file could not be opened")]
    Failed,
    /// There was no memory for the file.
    #[error("out of memory")]
    Oom,
}

/// A folder of files, which are opened by their names.
pub trait Files {
    /// An open file.
    type In: Source + Send;

    /// What is told of it. The count of its faults, and of the files that were given back, never
    /// falls.
    ghost state: { Self → FilesState };

    /// It tells what stands in it and what became of its files, or neither.
    ghost tells_both: { (files : Self) →
        IsSome (state files).folder ↔ IsSome (state files).uses };

    /// Opens a file, to be read from its start. `Absent` is told only by a folder that tells what
    /// stands in it.
    fn open(&mut self, alloc: Global, name: &str) -> Result<Self::In, OpenError>
        ensures opened { IfOk result (λ source. IfSome (state self.old).folder (λ folder.
            IsOpenedAt folder name.now (Self.In.state source))) }
        ensures fresh { IfOk result (λ source. (Self.In.state source).faults ≡ 0) }
        ensures same { OnOk result (state self.new ≡ state self.old) }
        ensures refused { IfErr result (λ error.
            IsNotOpened error name.now (state self.old) (state self.new)) };

    /// Gives back a file that was opened here. What the file failed at counts for the folder from
    /// then on.
    fn close(&mut self, source: Self::In)
        requires name_told { IsSome (state self.old).folder → IsSome (Self.In.state source).name }
        requires left_told { IsSome (state self.old).folder → IsSome (Self.In.state source).left }

        ensures no_fault { (Self.In.state source).faults ≡ 0
            → (state self.new).faults ≡ (state self.old).faults }
        ensures fault { 0 < (Self.In.state source).faults
            → IsRaised (state self.old).faults (state self.new).faults }
        ensures same_folder { (state self.new).folder ≡ (state self.old).folder }
        ensures noted { NotesClose (Self.In.state source)
            (state self.old).uses (state self.new).uses };
}
