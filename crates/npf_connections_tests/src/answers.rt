// Answers as lines of text.
use std::fmt::{Debug, Write};
use std::process::Abort;
use std::test::Fail;

/// Puts the answer behind those that were told before.
pub(crate) fn put(told: &mut String, answer: &impl Debug) -> Result<(), Fail> {
    write!(told, "{answer:?}\n")?;
    Ok(())
}

pub(crate) fn same(rt: &impl Abort, told: &str, wanted: &str) {
    assert_eq!(rt; told, wanted);
}
