// The fields of a line.
ghost use Rattle.std.specs.Prelude.{◌≡◌, ◌<◌, MatchOption, count_by};
ghost use Rattle.vectors.specs.Days.{Cut, Parts, tab};
ghost use Rattle.vectors.specs.Fields.{HasFields};

// The fields of a line: hex digits, and the line that is to be printed.
#[derive(Clone, Copy)]
pub(crate) struct Fields<'a> {
    pub(crate) text: &'a str,
    pub(crate) journal: &'a str,
    pub(crate) constants: &'a str,
    pub(crate) expected: &'a str,
}

// What stands before and behind the first tab.
fn cut(line: &str) -> Option<(&str, &str)>
    ensures { MatchOption result (count_by tab line.now ≡ 0) (λ parts. Cut line.now parts.0.now parts.1.now) }
{
    line.split_once('\t')
}

impl<'a> Fields<'a> {
    // The fields of a line of three tabs or more, all but the last without one.
    pub(crate) fn of(line: &'a str) -> Option<Fields<'a>>
        ensures { MatchOption result (count_by tab line.now < 3) (HasFields line.now) }
    {
        let (text, rest) = cut(line)?;
        let (journal, rest) = cut(rest)?;
        let (constants, expected) = cut(rest)?;
        Some(Fields {
            text,
            journal,
            constants,
            expected,
        })
    }
}
