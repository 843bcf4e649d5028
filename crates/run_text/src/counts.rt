ghost use Rattle.std.specs.Prelude.{◌≡◌, length};
ghost use Rattle.causal_base.specs.Journal.{came_by, delivered_by};
ghost use Rattle.run_text.specs.Runs.{held_by};

use causal_base::{Book, Causal};
use causal_laws::delivered_are_counted;
use event_book::Desk;

/// How many events are delivered.
pub(crate) fn count_delivered(desk: &Desk) -> u32
    ensures { result ≡ length (delivered_by desk.now.journal) }
{
    delivered_are_counted();
    // How many were accepted shows that the sum fits, and the setup that the journal is legal.
    let _accepted = count_accepted(desk);
    let _setup = desk.setup();
    let mut delivered = 0;
    for trace in 0..desk.traces() {
        delivered += desk.count(trace);
    }
    delivered
}

/// How many events came.
pub(crate) fn count_accepted(desk: &Desk) -> u32
    ensures { result ≡ length (came_by desk.now.journal) }
{
    // Reading it shows that the journal is legal.
    let _setup = desk.setup();
    desk.accepted()
}

/// How many events came and aren't delivered.
pub(crate) fn count_held(desk: &Desk) -> u32
    ensures { result ≡ held_by desk.now.journal }
{
    // Reading it shows that no more are delivered than came.
    let _setup = desk.setup();
    count_accepted(desk) - count_delivered(desk)
}
