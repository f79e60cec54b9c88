//! Lists of JSON, made part by part.

use serde_json::Value;
use std::alloc::{AllocError, Global};

/// A list so far, or that memory was refused for a part of it.
#[derive(Drop)]
pub struct Row {
    alloc: Global,
    made: Result<Vec<Value>, AllocError>,
}

/// Adds a part.
fn one_more(made: Vec<Value>, value: Value) -> Result<Vec<Value>, AllocError> {
    let mut made = made;
    match made.push(value) {
        Ok(_) => Ok(made),
        Err(_) => {
            drop(made);
            Err(AllocError)
        }
    }
}

/// The text of a number.
fn number_text(alloc: Global, number: i64) -> Result<Value, AllocError> {
    let text = format!(in alloc; "{number}")?;
    Value::try_from_str(alloc, text.as_str())
}

impl Row {
    /// One without parts.
    pub fn new(alloc: Global) -> Row {
        Row {
            alloc,
            made: Ok(Vec::new(alloc)),
        }
    }

    /// With a part more, unless memory was refused before.
    pub fn with(self, value: Result<Value, AllocError>) -> Row {
        let Row { alloc, made } = self;
        let made = match (made, value) {
            (Ok(made), Ok(value)) => one_more(made, value),
            _ => Err(AllocError),
        };
        Row { alloc, made }
    }

    /// With a number.
    pub fn number(self, number: usize) -> Row {
        self.with(Ok(Value::from(number)))
    }

    /// With a number, or null.
    pub fn number_or_null(self, number: Option<usize>) -> Row {
        match number {
            Some(number) => self.number(number),
            None => self.with(Ok(Value::Null)),
        }
    }

    /// With a text.
    pub fn text(self, text: &str) -> Row {
        let value = Value::try_from_str(self.alloc, text);
        self.with(value)
    }

    /// With the text of a number, which a browser would read as a float.
    pub fn number_text(self, number: i64) -> Row {
        let value = number_text(self.alloc, number);
        self.with(value)
    }

    /// As a value.
    pub fn done(self) -> Result<Value, AllocError> {
        match self.made {
            Ok(made) => Ok(Value::Array(made)),
            Err(refused) => Err(refused),
        }
    }
}
