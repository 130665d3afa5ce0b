//! Words and what they say.
use crate::{Form, read_words};
use std::test::Fail;

static NONE: [&[&str]; 20] = [
    &[],
    &["run"],
    &["run", ""],
    &["run", "--help"],
    &["run", "d", "e"],
    &["--help"],
    &["", "d"],
    &["start", "d"],
    &["format"],
    &["generate"],
    &["generate", "d"],
    &["generate", "d", "1"],
    &["generate", "d", "1", "0"],
    &["generate", "d", "01", "5"],
    &["generate", "d", "+1", "1"],
    &["generate", "d", "-1", "1"],
    &["generate", "d", "1", "50001"],
    &["generate", "d", "18446744073709551616", "1"],
    &["generate", "-h", "1", "1"],
    &["generate", "d", "1", "1", "1"],
];

#[test]
fn other_words_are_no_form(rt: HostRuntime) -> Result<(), Fail> {
    for words in &NONE {
        assert_eq!(rt; read_words(rt.alloc(), words)?, None);
    }
    Ok(())
}

#[test]
fn the_forms_are_read(rt: HostRuntime) -> Result<(), Fail> {
    let alloc = rt.alloc();
    assert_eq!(rt; read_words(alloc, &["run", "d"])?, Some(Form::Run));
    assert_eq!(rt; read_words(alloc, &["format", "d"])?, Some(Form::Format));
    assert_eq!(rt;
        read_words(alloc, &["generate", "d", "0", "1"])?,
        Some(Form::Generate { seed: 0, count: 1 })
    );
    assert_eq!(rt;
        read_words(alloc, &["generate", "d", "18446744073709551615", "50000"])?,
        Some(Form::Generate {
            seed: u64::MAX,
            count: 50_000
        })
    );
    Ok(())
}
