// What no clause says of words: lines with their first bad words.
use mj_words::{bad_place, tape_count};
use std::alloc::{AllocError, Global};
use std::test::Fail;

/// The words of a command, and the place of the first bad one, from 1.
const COMMANDS: [(&[&str], Option<usize>); 19] = [
    (&[], Some(1)),
    (&["walk"], Some(1)),
    (
        &["run", "--model", "a", "--model", "b", "--steps", "1"],
        Some(4),
    ),
    (&["run", "--model"], Some(3)),
    (&["run", "--model", "a", "--steps", "007"], Some(5)),
    (&["run", "--steps", "x", "--foo", "1"], Some(4)),
    (&["run", "--model", "a"], Some(4)),
    (
        &["run", "--model", "a", "--steps", "1", "--dual", "maybe"],
        Some(7),
    ),
    (&["run", "--links", "1"], Some(2)),
    (&["gen", "--links", "0", "--seed", "7"], Some(3)),
    (&["gen", "--links", "65", "--seed", "7"], Some(3)),
    (&["gen", "--links", "1", "--seed", "4294967296"], Some(5)),
    (&["gen", "--links", "1", "--steps", "1"], Some(4)),
    (
        &["bench", "--links", "1", "--seed", "7", "--steps", "10001"],
        Some(7),
    ),
    (
        &[
            "batch",
            "--model",
            "a",
            "--steps",
            "1",
            "--tape",
            "t",
            "--workers",
            "0",
        ],
        Some(9),
    ),
    (
        &["batch", "--model", "a", "--steps", "1", "--workers", "1"],
        Some(8),
    ),
    (&["run", "--model", "a", "--steps", "1000000"], None),
    (
        &[
            "run", "--dual", "no", "--tape", "t", "--steps", "0", "--model", "--model",
        ],
        None,
    ),
    (&["gen", "--seed", "4294967295", "--links", "64"], None),
];

// The words as owned texts.
fn words_of(alloc: Global, texts: &[&str]) -> Result<Vec<String>, AllocError> {
    let mut words = Vec::new(alloc);
    for text in texts {
        words.push(String::from_str(alloc, text)?)?;
    }
    Ok(words)
}

#[test]
fn the_first_bad_word_is_named(rt: HostRuntime) -> Result<(), Fail> {
    for (texts, place) in COMMANDS {
        let words = words_of(rt.alloc(), texts)?;
        assert_eq!(rt; bad_place(words.as_slice()), place, "{texts:?}");
    }
    Ok(())
}

#[test]
fn a_batch_has_sixty_four_tapes_at_most(rt: HostRuntime) -> Result<(), Fail> {
    let mut words = words_of(
        rt.alloc(),
        &["batch", "--model", "a", "--steps", "1", "--workers", "1"],
    )?;
    for _ in 0..64 {
        words.push(String::from_str(rt.alloc(), "--tape")?)?;
        words.push(String::from_str(rt.alloc(), "t")?)?;
    }
    assert_eq!(rt; bad_place(words.as_slice()), None);
    assert_eq!(rt; tape_count(words.as_slice()), 64);
    words.push(String::from_str(rt.alloc(), "--tape")?)?;
    words.push(String::from_str(rt.alloc(), "t")?)?;
    assert_eq!(rt; bad_place(words.as_slice()), Some(136));
    Ok(())
}
