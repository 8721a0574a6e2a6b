// Kind 2, labels: a number from 1 to 16, then that many letters, digits or hyphens; the case of letters does not count.
ghost use Rattle.std.specs.Prelude.{◌≡◌, ℕ, ◌≤◌, true, not, length, Decides, Result, ◌==◌};
ghost use Rattle.kinds.specs.Labels.{Labelled, all_label, label_class, label_of, label_read, no_label, spelling};
ghost use Rattle.kinds.specs.Readings.{Reading};
ghost use Rattle.kinds.specs.declared.label.Label.{Label};
ghost use Rattle.kinds.specs.declared.refusal.Fault.{Fault};
ghost use Rattle.kinds.specs.Trims.{label_lone};
ghost use Rattle.kinds.specs.Meaning.{label_unread, label_keeps};
ghost use Rattle.std.proofs.Common.{rules};

use crate::kind::Kind;
use crate::label::Label;
use crate::number::read_number;
use crate::refusal::{Fault, Layer, Reason};

const CUT: Fault = Fault {
    layer: Layer::Value,
    reason: Reason::Cut,
};

const BAD: Fault = Fault {
    layer: Layer::Value,
    reason: Reason::BadLabel,
};

// Whether every byte may stand in a label.
fn are_label_bytes(text: &[u8]) -> bool
    ensures { result ≡ all_label text.now }
{
    text.iter().all(|b| b.is_ascii_alphanumeric() || *b == b'-')
}

// The label that a short text spells.
#[tactic(auto, using(crate::specs::Trims::padded_is, crate::specs::Trims::sixteen_from))]
fn spell(text: &[u8]) -> Label
    requires { length text.now ≤ 16 }
    ensures { result ≡ label_of text.now }
{
    let mut label = [0; 16];
    label[0..text.len()].copy_from_slice(text);
    Label { text: label }
}

// Reads a length and then a text of that length.
// Kept apart from `read_label`: there each way out would owe the clauses on meaning too, and `meaning` and `only` stay open at three of them.
#[tactic(auto, using(crate::specs::Texts::read_fault, crate::specs::Texts::read_long, crate::specs::Texts::read_whole))]
fn read_text(bytes: &[u8]) -> Result<(Label, usize), Fault>
    ensures { result ≡ label_read bytes.now }
{
    let (length, count) = read_number(bytes)?;
    let Ok(length @ 1..=16) = usize::try_from(length) else {
        return Err(BAD);
    };
    let (_, rest) = bytes.split_at(count);
    let Some(text) = rest.get(..length) else {
        return Err(CUT);
    };
    if !are_label_bytes(text) {
        return Err(BAD);
    }
    Ok((spell(text), count + length))
}

// Reads the label at the front of some bytes, and tells how many bytes it takes.
#[tactic(auto, using(crate::specs::Meaning::labelled, crate::specs::Meaning::label_only, crate::specs::Meaning::label_keeps))]
pub fn read_label(bytes: &[u8]) -> Result<(Label, usize), Fault>
    ensures value { result ≡ label_read bytes.now }
    ensures meaning { Labelled bytes.now result }
    ensures only { (s : Result (Label × ℕ) Fault) → Labelled bytes.now s → s ≡ result }
    ensures within { Reading 17 bytes.now result }
{
    read_text(bytes)
}

impl Label {
    // The text of a label, as it was written.
    #[tactic(auto, using(crate::specs::Trims::trim_none))]
    pub fn text(&self) -> &[u8]
        ensures { result.now ≡ spelling self.now }
    {
        let last = self.text.iter().rposition(
            |b| -> bool
                ensures { result ≡ not (b.now == 0) }
            { *b != 0 },
        );
        match last {
            Some(last) => &self.text[..=last],
            None => &[],
        }
    }
}

// The kind of labels.
pub struct Labels;

impl Kind for Labels {
    type Value = Label;

    const NUMBER: u8 = 2;

    const LONGEST: usize = 17;

    ghost NUMBER = { 2 };

    ghost LONGEST = { 17 };

    ghost class = { label_class };

    ghost nothing = { no_label };

    ghost reads = { label_read };

    ghost empty = { Prim.search rules };

    ghost lone = { label_lone };

    ghost unread = { label_unread };

    ghost bounded = { label_keeps };

    ghost modest = { Prim.search rules };

    ghost small = { Prim.search rules };

    #[tactic(auto, using(crate::specs::Trims::class_from, crate::specs::Trims::class_to))]
    fn same(a: &Label, b: &Label) -> bool {
        a.text.eq_ignore_ascii_case(&b.text)
    }

    fn nothing() -> Label {
        Label { text: [0; 16] }
    }

    fn read(bytes: &[u8]) -> Result<(Label, usize), Fault> {
        read_label(bytes)
    }
}
