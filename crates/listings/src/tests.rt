use day::listing::listing;
use day::methods::method_named;
use std::alloc::Global;
use std::process::Abort;
use std::test::Fail;

// A journal is listed as a text says.
fn lists(rt: &impl Abort, heap: Global, journal: &[u8], text: &str) -> Result<(), Fail> {
    let out = listing(heap, journal, None)?;
    assert!(rt; out.as_slice() == text.as_bytes(), "{}", text);
    Ok(())
}

// What is read of both kinds, and how a journal ends.
#[test]
fn lists_both_kinds(rt: HostRuntime) -> Result<(), Fail> {
    let heap = rt.alloc();
    lists(
        &rt,
        heap,
        b"\x01\x01\x06\x01\x0C\x07\x01\x84\x07\x0A\x00\x08\x02\x0C\x84\x07",
        "journal numbers\ncall 3 12\nreturn 3 900\ncall 5\ncall 4 12 900\nend 4\n",
    )?;
    lists(
        &rt,
        heap,
        b"\x01\x02\x07\x01\x05HW-12\x06\x00",
        "journal labels\nreturn 3 HW-12\ncall 3\nend 2\n",
    )?;
    lists(&rt, heap, b"\x01\x01", "journal numbers\nend 0\n")?;
    lists(
        &rt,
        heap,
        b"\x01\x01\xFF\xFF\x07\x01\xFF\xFF\xFF\xFF\xFF\xFF\xFF\xFF\x7F",
        "journal numbers\nreturn 65535 9223372036854775807\nend 1\n",
    )
}

// A head that is refused: 7 before 1 before 3.
#[test]
fn refuses_heads(rt: HostRuntime) -> Result<(), Fail> {
    let heap = rt.alloc();
    let long = vec![in heap; 0u8; 65_537]?;
    lists(&rt, heap, &long, "refused journal 7 0\n")?;
    let full = vec![in heap; 0u8; 65_536]?;
    lists(&rt, heap, &full, "refused journal 3 0\n")?;
    lists(&rt, heap, b"", "refused journal 1 0\n")?;
    lists(&rt, heap, b"\x02", "refused journal 1 0\n")?;
    lists(&rt, heap, b"\x02\x01", "refused journal 3 0\n")?;
    lists(&rt, heap, b"\x01\x03", "refused journal 3 1\n")
}

// A record that is refused, front to back, where the events before it are listed.
#[test]
fn refuses_records(rt: HostRuntime) -> Result<(), Fail> {
    let heap = rt.alloc();
    lists(
        &rt,
        heap,
        b"\x01\x01\x06\x00\x80",
        "journal numbers\ncall 3\nrefused number 1 4\n",
    )?;
    lists(
        &rt,
        heap,
        b"\x01\x01\x06\x00\x84\x00",
        "journal numbers\ncall 3\nrefused number 2 4\n",
    )?;
    lists(
        &rt,
        heap,
        b"\x01\x01\x80\x80\x08\x00",
        "journal numbers\nrefused journal 4 2\n",
    )?;
    lists(
        &rt,
        heap,
        b"\x01\x01\x06",
        "journal numbers\nrefused number 1 3\n",
    )?;
    lists(
        &rt,
        heap,
        b"\x01\x01\x06\x06",
        "journal numbers\nrefused journal 5 2\n",
    )?;
    lists(
        &rt,
        heap,
        b"\x01\x01\x07\x02",
        "journal numbers\nrefused journal 5 2\n",
    )?;
    lists(
        &rt,
        heap,
        b"\x01\x01\x06\x02\x0C",
        "journal numbers\nrefused number 1 5\n",
    )?;
    lists(
        &rt,
        heap,
        b"\x01\x02\x06\x01\xAC\x02",
        "journal labels\nrefused value 6 4\n",
    )?;
    lists(
        &rt,
        heap,
        b"\x01\x02\x06\x01\x02 ",
        "journal labels\nrefused value 1 4\n",
    )?;
    lists(
        &rt,
        heap,
        b"\x01\x02\x06\x01\x02 a",
        "journal labels\nrefused value 6 4\n",
    )
}

// Only the events of the chosen methods, and the words that name methods.
#[test]
fn lists_chosen_methods(rt: HostRuntime) -> Result<(), Fail> {
    let day = b"\x01\x01\x06\x00\x08\x00\x07\x00\x80";
    let out = listing(rt.alloc(), day, Some(&[3, 9]))?;
    assert!(rt;
        out.as_slice() == "journal numbers\ncall 3\nreturn 3\nrefused number 1 8\n".as_bytes()
    );
    assert_eq!(rt; method_named("65535"), Some(65_535));
    assert_eq!(rt; method_named("007"), Some(7));
    assert_eq!(rt; method_named("65536"), None);
    assert_eq!(rt; method_named("+3"), None);
    assert_eq!(rt; method_named(""), None);
    Ok(())
}
