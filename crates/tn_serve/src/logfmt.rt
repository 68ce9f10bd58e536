//! The pairs of a record as logfmt writes them: `key=value`, with quotes round a value that needs them.

use log::kv;
use log::kv::{Source, Value, VisitSource};
use std::alloc::{AllocError, Global};
use std::fmt;
use std::fmt::Display;

/// Appends each pair, a space before it.
pub(crate) fn push_pairs<K: Source>(
    alloc: Global,
    line: &mut String,
    pairs: &K,
) -> Result<(), AllocError> {
    match pairs.visit(&mut Pairs { alloc, line }) {
        Ok(()) => Ok(()),
        Err(_) => Err(AllocError),
    }
}

// Takes the pairs of a record, and appends each.
#[derive(Drop)]
struct Pairs<'l> {
    alloc: Global,
    line: &'l mut String,
}

impl VisitSource for Pairs<'_> {
    fn visit_pair<D: Display>(&mut self, key: &str, value: Value<'_, D>) -> Result<(), kv::Error> {
        match self.push(key, value) {
            Ok(()) => Ok(()),
            Err(_) => Err(kv::Error::Fmt),
        }
    }
}

impl Pairs<'_> {
    fn push<D: Display>(&mut self, key: &str, value: Value<'_, D>) -> Result<(), AllocError> {
        let value = String::format(self.alloc, value)?;
        self.line.push(' ')?;
        self.line.push_str(key)?;
        self.line.push('=')?;
        if value.chars().any(needs_quotes) || value.is_empty() {
            self.line.write(Quoted(value.as_str()))
        } else {
            self.line.push_str(value.as_str())
        }
    }
}

fn needs_quotes(c: char) -> bool {
    c <= ' ' || c == '"' || c == '=' || c == '\\' || c == '\x7f'
}

// A value between quotes, in which quotes, backslashes and control characters are escaped.
#[derive(Drop)]
struct Quoted<'t>(&'t str);

impl Display for Quoted<'_> {
    fn fmt<W: fmt::Write>(&self, f: &mut fmt::Formatter<W>) -> fmt::Result {
        f.write_str("\"")?;
        for c in self.0.chars() {
            match c {
                '"' => f.write_str("\\\"")?,
                '\\' => f.write_str("\\\\")?,
                '\n' => f.write_str("\\n")?,
                '\r' => f.write_str("\\r")?,
                '\t' => f.write_str("\\t")?,
                c if c < ' ' || c == '\x7f' => write!(f, "\\u{:04x}", u32::from(c))?,
                c => write!(f, "{}", c)?,
            }
        }
        f.write_str("\"")
    }
}
