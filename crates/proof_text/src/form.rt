//! Which node a line is, by its word.
ghost use Rattle.std.specs.Prelude.{◌≡◌, ◌≢◌, take, MatchOption};
ghost use Rattle.proof_text.specs.declared.form.Form.{Form as form_kind};
ghost use Rattle.proof_text.specs.ProofLines.{node_numbers, node_word};
ghost use Rattle.proof_text.specs.Code.NodeParts.{form_count, form_word};

use grid::Cell;
use optimality::Node;

/// No line of a node has more numbers.
pub(crate) const MOST_NUMBERS: usize = 7;

/// A node's word.
#[derive(Clone, Copy)]
pub(crate) enum Form {
    Vertex,
    Swap,
    At,
    Goes,
    Stays,
}

impl Form {
    pub(crate) fn of_word(word: &[u8]) -> Option<Form>
        ensures { MatchOption result ((form : form_kind) → word.now ≢ form_word form)
            (λ form. word.now ≡ form_word form) }
    {
        if word == b"vertex".as_slice() {
            return Some(Form::Vertex);
        }
        if word == b"swap".as_slice() {
            return Some(Form::Swap);
        }
        if word == b"at".as_slice() {
            return Some(Form::At);
        }
        if word == b"goes".as_slice() {
            return Some(Form::Goes);
        }
        if word == b"stays".as_slice() {
            return Some(Form::Stays);
        }
        None
    }

    /// How many numbers follow the word.
    pub(crate) fn count(self) -> usize
        ensures { result ≡ form_count self }
    {
        match self {
            Form::Vertex => 5,
            Form::Swap => 7,
            Form::At => 4,
            Form::Goes => 6,
            Form::Stays => 2,
        }
    }

    /// The node with these numbers, of which the first so many count.
    pub(crate) fn node(self, numbers: [u16; MOST_NUMBERS]) -> Node
        ensures word { node_word result ≡ form_word self }
        ensures numbers { node_numbers result ≡ take (form_count self) numbers }
    {
        let [first, second, third, fourth, fifth, sixth, seventh] = numbers;
        let (one, two, three) = (u32::from(first), u32::from(second), u32::from(third));
        match self {
            Form::Vertex => Node::Vertex(one, two, three, cell(fourth, fifth)),
            Form::Swap => {
                let (from, to) = (cell(fourth, fifth), cell(sixth, seventh));
                Node::Swap(one, two, three, from, to)
            }
            Form::At => Node::At(one, two, cell(third, fourth)),
            Form::Goes => Node::Goes(one, two, cell(third, fourth), cell(fifth, sixth)),
            Form::Stays => Node::Stays(one, two),
        }
    }
}

fn cell(x: u16, y: u16) -> Cell
    ensures column { result.x ≡ x }
    ensures row { result.y ≡ y }
{
    Cell { x, y }
}
