//! Parts of a line.

/// The bytes from one place up to another, counted from 0.
#[derive(Clone, Copy)]
pub(crate) struct Span {
    pub(crate) from: usize,
    pub(crate) upto: usize,
}

impl Span {
    /// The bytes there, as far as there are any.
    pub(crate) fn of(self, bytes: &[u8]) -> &[u8] {
        let upto = self.upto.min(bytes.len());
        &bytes[self.from.min(upto)..upto]
    }

    /// No bytes, at this place.
    pub(crate) fn before(place: usize) -> Span {
        Span {
            from: place,
            upto: place,
        }
    }

    /// The one place with this column, which counts from 1.
    pub(crate) fn at_column(column: u64) -> Span {
        let from = usize::try_from(column.saturating_sub(1)).unwrap_or(usize::MAX);
        Span {
            from,
            upto: from.saturating_add(1),
        }
    }
}

/// The line without the blanks at its ends, nor the CR at its end.
pub(crate) fn content(line: &[u8]) -> Span {
    let is_left = |b: &u8| !matches!(*b, b' ' | b'\t' | b'\r');
    let from = line.iter().position(is_left).unwrap_or(line.len());
    let upto = line
        .iter()
        .rposition(is_left)
        .map_or(from, |last| last.saturating_add(1));
    Span { from, upto }
}

/// Whether the line ends with a CR.
pub(crate) fn ends_with_return(line: &[u8]) -> bool {
    line.last().is_some_and(|b| *b == b'\r')
}

/// Up to ten parts of a line, and how many there are.
#[derive(Clone, Copy)]
pub(crate) struct Parts {
    spans: [Span; 10],
    count: usize,
}

impl Parts {
    fn none() -> Parts {
        Parts {
            spans: [Span { from: 0, upto: 0 }; 10],
            count: 0,
        }
    }

    fn push(&mut self, from: usize, upto: usize) {
        if let Some(span) = self.spans.get_mut(self.count) {
            *span = Span { from, upto };
        }
        self.count = self.count.saturating_add(1);
    }

    /// How many there are.
    pub(crate) fn count(&self) -> usize {
        self.count
    }

    /// The part with this number, from 0.
    pub(crate) fn get(&self, number: usize) -> Option<Span> {
        if number < self.count {
            self.spans.get(number).copied()
        } else {
            None
        }
    }

    /// The first part that is empty.
    pub(crate) fn first_empty(&self) -> Option<Span> {
        self.spans
            .iter()
            .take(self.count)
            .find(|span| span.from == span.upto)
            .copied()
    }

    /// The parts of a line that is cut at every space.
    pub(crate) fn at_spaces(line: &[u8]) -> Parts {
        let mut parts = Parts::none();
        let mut from = 0usize;
        for (at, byte) in line.iter().enumerate() {
            if *byte == b' ' {
                parts.push(from, at);
                from = at.saturating_add(1);
            }
        }
        parts.push(from, line.len());
        parts
    }

    /// The fields of a line of a scenario: runs of blanks divide them, with a tab in them where the
    /// line has one.
    pub(crate) fn fields(line: &[u8]) -> Parts {
        let has_tab = line.contains(&b'\t');
        let whole = content(line);
        let mut parts = Parts::none();
        let mut from = whole.from;
        let mut end = whole.from;
        let mut is_divided = false;
        for (place, byte) in whole.of(line).iter().enumerate() {
            let at = whole.from.saturating_add(place);
            if matches!(*byte, b' ' | b'\t') {
                is_divided = is_divided || *byte == b'\t' || !has_tab;
                continue;
            }
            if is_divided {
                parts.push(from, end);
                from = at;
                is_divided = false;
            }
            end = at.saturating_add(1);
        }
        parts.push(from, end);
        parts
    }
}

/// The value of digits, if there is nothing else and it fits.
pub(crate) fn number(digits: &[u8]) -> Option<u64> {
    if digits.is_empty() {
        return None;
    }
    let mut value = 0u64;
    for digit in digits {
        if !digit.is_ascii_digit() {
            return None;
        }
        value = value
            .checked_mul(10)?
            .checked_add(u64::from(*digit - b'0'))?;
    }
    Some(value)
}

/// Whether the bytes are a number without zeros in front, and no greater.
pub(crate) fn is_number_upto(digits: &[u8], most: u64) -> bool {
    let is_plain = digits.len() == 1 || digits.first().is_some_and(|b| *b != b'0');
    is_plain && number(digits).is_some_and(|value| value <= most)
}
