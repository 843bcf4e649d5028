//! Opens the sources of the collectors, and gives them back.

ghost use Rattle.std.specs.Prelude.{◌≡◌, ◌≤◌, ◌∷◌, [], map, length, vec_capacity, IfOk, IfErr, OnOk};
ghost use Rattle.std.specs.List.{AllByRecursion};
ghost use Rattle.run_files.specs.Sources.{AreOpenedAt, IsOpenIn, IsStuck, LackSources, WereGivenBack};
ghost use Rattle.run_files.specs.Troubles.{trouble_of};

use crate::fault::Fault;
use poet_io::Files;
use std::alloc::Global;

/// The files of these names, opened in their order. Where one doesn't open, those before it are
/// given back.
pub fn open_sources<'a, F: Files>(
    alloc: Global,
    files: &mut F,
    names: &[&'a str],
) -> Result<Vec<F::In>, Fault<'a>>
    ensures ok { IfOk result (λ sources. AreOpenedAt (F.state files.old).folder
        (map (λ n. n.now) names.now) (map F.In.state sources.items)) }
    ensures same { OnOk result (F.state files.new ≡ F.state files.old) }
    ensures err { IfErr result (λ fault. LackSources (map (λ n. n.now) names.now)
        (F.state files.old) (F.state files.new) (trouble_of fault)) }
{
    let Ok(mut sources) = Vec::with_capacity(alloc, names.len()) else {
        return Err(Fault::Memory);
    };
    match open_each(alloc, files, names, &mut sources) {
        Ok(()) => Ok(sources),
        Err(fault) => {
            give_back_all(files, sources);
            Err(fault)
        }
    }
}

/// Gives sources back that were opened in this folder, in their order.
pub fn give_back_all<F: Files>(files: &mut F, sources: Vec<F::In>)
    requires { AllByRecursion (IsOpenIn (F.state files.old).folder)
        (map F.In.state sources.items) }
    ensures { WereGivenBack (map F.In.state sources.items) (F.state files.old)
        (F.state files.new) }
{
    let mut rest = sources.into_iter();
    while let Some(source) = rest.next() {
        give_back(files, source);
    }
    // A source can't be let go, so it is shown that none is left.
    rest.destroy_empty();
}

/// Gives a source back that was opened in this folder.
pub fn give_back<F: Files>(files: &mut F, source: F::In)
    requires { IsOpenIn (F.state files.old).folder (F.In.state source) }
    ensures { WereGivenBack (F.In.state source ∷ []) (F.state files.old) (F.state files.new) }
{
    files.close(source);
}

/// Opens the files of these names, and adds a source for each.
fn open_each<'a, F: Files>(
    alloc: Global,
    files: &mut F,
    names: &[&'a str],
    sources: &mut Vec<F::In>,
) -> Result<(), Fault<'a>>
    requires none { sources.old.items ≡ [] }
    requires room { length names.now ≤ vec_capacity sources.old }
    ensures ok { OnOk result (AreOpenedAt (F.state files.old).folder (map (λ n. n.now) names.now)
        (map F.In.state sources.new.items)) }
    ensures same { OnOk result (F.state files.new ≡ F.state files.old) }
    ensures err { IfErr result (λ fault. IsStuck (map (λ n. n.now) names.now) (F.state files.old)
        (F.state files.new) (map F.In.state sources.new.items) (trouble_of fault)) }
{
    for at in 0..names.len() {
        match files.open(alloc, names[at]) {
            Ok(source) => sources.push_reserved(source),
            Err(error) => return Err(Fault::of_open(error, names[at])),
        }
    }
    Ok(())
}
