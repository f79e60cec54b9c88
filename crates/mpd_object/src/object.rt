//! Objects of JSON, made key by key.

use serde_json::{Map, Value, put};
use std::alloc::{AllocError, Global};
use std::fmt;
use std::str::from_utf8;

/// An object so far, or that memory was refused for a part of it.
#[derive(Drop)]
pub struct Object {
    alloc: Global,
    made: Result<Map<String, Value>, AllocError>,
}

/// Adds a key.
fn one_more(
    alloc: Global,
    made: Map<String, Value>,
    key: &str,
    value: Value,
) -> Result<Map<String, Value>, AllocError> {
    let mut made = made;
    match put(&mut made, alloc, key, value) {
        Ok(()) => Ok(made),
        Err(refused) => {
            drop(made);
            Err(refused)
        }
    }
}

/// What something is called, as it is displayed.
fn shown_value<T: fmt::Display + Drop>(alloc: Global, value: T) -> Result<Value, AllocError> {
    let text = format!(in alloc; "{value}")?;
    Value::try_from_str(alloc, text.as_str())
}

/// A text, or null if the bytes are none.
pub fn text_value(alloc: Global, text: &[u8]) -> Result<Value, AllocError> {
    match from_utf8(text) {
        Ok(text) => Value::try_from_str(alloc, text),
        Err(_) => Ok(Value::Null),
    }
}

/// A list.
pub fn list(values: Result<Vec<Value>, AllocError>) -> Result<Value, AllocError> {
    match values {
        Ok(values) => Ok(Value::Array(values)),
        Err(refused) => Err(refused),
    }
}

/// Numbers as a list.
pub fn numbers(alloc: Global, numbers: &[usize]) -> Result<Value, AllocError> {
    let mut values = Vec::new(alloc);
    for number in numbers {
        values.push(Value::from(*number))?;
    }
    Ok(Value::Array(values))
}

/// Whether that is a list that has nothing.
fn is_empty_list(value: &Result<Value, AllocError>) -> bool {
    match value {
        Ok(Value::Array(values)) => values.is_empty(),
        Ok(_) | Err(_) => false,
    }
}

impl Object {
    /// One without keys.
    pub fn new(alloc: Global) -> Object {
        Object {
            alloc,
            made: Ok(Map::new(alloc)),
        }
    }

    /// With a key more, unless memory was refused before.
    pub fn with(self, key: &str, value: Result<Value, AllocError>) -> Object {
        let Object { alloc, made } = self;
        let made = match (made, value) {
            (Ok(made), Ok(value)) => one_more(alloc, made, key, value),
            _ => Err(AllocError),
        };
        Object { alloc, made }
    }

    /// With a number.
    pub fn number(self, key: &str, number: usize) -> Object {
        self.with(key, Ok(Value::from(number)))
    }

    /// With a number, or null.
    pub fn number_or_null(self, key: &str, number: Option<usize>) -> Object {
        match number {
            Some(number) => self.number(key, number),
            None => self.null(key),
        }
    }

    /// With a number, if there is one.
    pub fn number_if(self, key: &str, number: Option<usize>) -> Object {
        match number {
            Some(number) => self.number(key, number),
            None => self,
        }
    }

    /// With a list, if it has something.
    pub fn with_some(self, key: &str, list: Result<Value, AllocError>) -> Object {
        if is_empty_list(&list) {
            drop(list);
            return self;
        }
        self.with(key, list)
    }

    /// With yes or no.
    pub fn flag(self, key: &str, flag: bool) -> Object {
        self.with(key, Ok(Value::Bool(flag)))
    }

    /// With nothing.
    pub fn null(self, key: &str) -> Object {
        self.with(key, Ok(Value::Null))
    }

    /// With a text.
    pub fn text(self, key: &str, text: &str) -> Object {
        let value = Value::try_from_str(self.alloc, text);
        self.with(key, value)
    }

    /// With what something is called, as it is displayed.
    pub fn shown<T: fmt::Display + Drop>(self, key: &str, value: T) -> Object {
        let value = shown_value(self.alloc, value);
        self.with(key, value)
    }

    /// As a value.
    pub fn done(self) -> Result<Value, AllocError> {
        match self.made {
            Ok(made) => Ok(Value::Object(made)),
            Err(refused) => Err(refused),
        }
    }
}

/// A value as a line.
pub fn line(alloc: Global, value: Result<Value, AllocError>) -> Result<String, AllocError> {
    let mut text = value?.to_string(alloc)?;
    text.push('\n')?;
    Ok(text)
}
