// What a line makes: the reply to it, and the study after it. A call makes a turn and writes nothing; `main` then writes the reply.
ghost use Rattle.std.specs.Prelude.{◌≡◌};
ghost use Rattle.network.specs.Network.{network};
ghost use Rattle.console.specs.Effects.{Lent, effect_of, wrong, ground};

use network::calls::Answer;
use network::query::Found;
use network::study::Study;

// Why a line is no call.
#[derive(Clone, Copy)]
pub(crate) enum Reason {
    Fields,
    Number,
    Hex,
    Room,
    Unknown,
    Long,
}

// What a line is answered with. Of a writing: the number, the length of the text, and how many bytes were lent. Of a breaking
// current: the number, the figure, and how many numbers were lent. Of a report: the number, and how many numbers were lent.
#[derive(Clone, Copy)]
pub(crate) enum Reply {
    Ground(u32),
    Reading(u32, u32),
    Found(Found),
    Written(u32, usize, usize),
    Breaking(u32, f64, usize),
    Report(u32, usize),
    Error(Reason),
}

#[derive(Clone, Copy)]
pub(crate) struct Turn {
    pub reply: Reply,
    pub study: Study,
}

// The turn of a call that starts, adds or closes.
pub(crate) fn answered(done: Answer) -> Turn
    ensures { (lent : Lent) → effect_of lent result ≡ ground done.number (network done.study) }
{
    let study = done.study;
    Turn {
        reply: Reply::Ground(done.number),
        study,
    }
}

// The turn of a line that is no call: nothing is changed.
pub(crate) fn failed(s: Study, reason: Reason) -> Turn
    ensures study { result.study ≡ s }
    ensures effect { (lent : Lent) → effect_of lent result ≡ wrong reason (network s) }
{
    Turn {
        reply: Reply::Error(reason),
        study: s,
    }
}
