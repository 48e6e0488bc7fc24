//! The words in which a fault is told.
ghost use Rattle.std.specs.Prelude.{◌≡◌, ◌≤◌, ◌∷◌, [], Some, length, map, take, decimal, true};
ghost use Rattle.text_io.specs.FaultName.{fault_name};

use crate::fault_name::FaultName;
use crate::origin::Origin;
use std::fmt;

/// A name and up to five numbers, as `BadTerrain 5 2`; whether a device failed, or memory, or a
/// text is faulty; and what the fault is of, of which no contract speaks. A `Display` may fail for
/// reasons of its own, so what a fault says is a value, which can be written whole.
#[derive(Clone, Copy, Debug)]
pub struct FaultWords {
    name: FaultName,
    numbers: [u64; 5],
    count: usize,
    is_failure: bool,
    origin: Origin,
    ghost in_array: { count ≤ 5 },
}

impl FaultWords {
    ghost use Rattle.text_io.specs.FaultWords.{words_of, text_fault, Words};

    /// The words of a fault that a text has, or of an answer that is no.
    pub fn new(name: FaultName, numbers: &[u64]) -> FaultWords
        requires { length numbers.now ≤ 5 }
        ensures { words_of result ≡ text_fault (fault_name name) numbers.now }
    {
        let count = numbers.len();
        let mut array = [0; 5];
        array[..count].copy_from_slice(numbers);
        FaultWords {
            name,
            numbers: array,
            count,
            is_failure: false,
            origin: Origin::Command,
        }
    }

    /// The words of something else that failed.
    pub(crate) fn failed(name: FaultName) -> FaultWords
        ensures { words_of result ≡ record { parts = fault_name name ∷ []; is_failure = true } }
    {
        FaultWords {
            name,
            numbers: [0; 5],
            count: 0,
            is_failure: true,
            origin: Origin::Command,
        }
    }

    /// The same words, of a fault of this.
    pub fn of(self, origin: Origin) -> FaultWords
        ensures { words_of result ≡ words_of self }
    {
        let mut words = self;
        words.origin = origin;
        words
    }

    /// Which fault it is.
    pub fn fault(&self) -> FaultName
        ensures { result ≡ self.now.name }
    {
        self.name
    }

    /// The first word.
    pub fn name(&self) -> &'static str
        ensures { result.now ≡ fault_name self.now.name }
    {
        self.name.text()
    }

    /// What the fault is of.
    pub fn origin(&self) -> Origin
        ensures { result ≡ self.now.origin }
    {
        self.origin
    }

    /// The numbers that follow it.
    pub fn numbers(&self) -> &[u64]
        ensures { result.now ≡ take self.now.count self.now.numbers }
    {
        &self.numbers[..self.count]
    }

    /// Whether a device failed, or memory.
    pub fn is_failure(&self) -> bool
        ensures { result ≡ (words_of self.now).is_failure }
    {
        self.is_failure
    }
}

impl fmt::Display for FaultWords {
    ghost use Rattle.text_io.specs.FaultWords.{words_of, words_text};

    ghost output = { λ words. Some (words_text (words_of words)) };

    fn fmt<W: fmt::Write>(&self, f: &mut fmt::Formatter<W>) -> fmt::Result {
        f.write_str(self.name())?;
        for number in self.numbers() {
            write!(f, " {number}")?;
        }
        Ok(())
    }
}
