// What is wrong with a command line: what was expected, and what was found.
use crate::count::Count;
use std::fmt;
use thiserror::Error;

#[derive(Clone, Copy, Debug, PartialEq, Eq, Error)]
pub enum Mistake<'a> {
    // no command
    #[error("expected `run`, `script` or `--help`, found `{0}`")]
    Command(&'a str),
    // no option of `run`
    #[error("expected `--steps N`, `--tick N`, `--turns N`, `--trace` or `--help`, found `{0}`")]
    Option(&'a str),
    // no number that the option takes; nothing where the line ended
    #[error("`{option}` takes a number from 1 to {most}, found {found}", option = .0.option(), most = .0.most(), found = Found(*.1))]
    Value(Count, Option<&'a str>),
    // a second file
    #[error("expected one file at most, found `{0}` too")]
    Extra(&'a str),
}

// A word, or the end of the line.
#[derive(Clone, Copy)]
struct Found<'a>(Option<&'a str>);

impl<'a> fmt::Display for Found<'a> {
    fn fmt<W: fmt::Write>(&self, f: &mut fmt::Formatter<W>) -> fmt::Result {
        match self.0 {
            Some(word) => write!(f, "`{word}`"),
            None => write!(f, "the end of the line"),
        }
    }
}
