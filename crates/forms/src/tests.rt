use crate::finding::Finding;
use std::test::Fail;

// A finding as people read it: the number, then the place.
#[test]
fn shows_the_number_first(rt: HostRuntime) -> Result<(), Fail> {
    let finding = Finding {
        place: 8192,
        number: 11,
    };
    let text = format!(in rt.alloc(); "{finding:?}")?;
    assert_eq!(rt; text.as_str(), "Finding { number: 11, place: 8192 }");
    Ok(())
}
