//! The text of a call, kept from one line to the next.

ghost use Rattle.std.specs.Prelude.{◌≡◌, true, slice_get, IsSomeAnd, Some, None};
ghost use Rattle.op_table.specs.Kind.{IsKind};
ghost use Rattle.work_lang.specs.Workload.{HasLine};
ghost use Rattle.report_text.specs.CallTexts.{IsTextOf, call_front};

use op_table::LineBuf;
use place_core::{Declared, Line};
use work_lang::push_call;

/// The text of a line's call and of what stands between it and the reply. It takes no memory.
#[derive(Drop)]
pub(crate) struct CallText {
    line: Option<Line>,
    text: LineBuf,
}

impl CallText {
    /// The text of no line yet.
    pub(crate) fn new() -> Self
        ensures { result.line ≡ None }
    {
        CallText {
            line: None,
            text: LineBuf::new(),
        }
    }

    /// Whether it is the text of this line.
    fn is_of(&self, line: &Line) -> bool
        ensures { result ≡ true → self.now.line ≡ Some line.now }
    {
        match &self.line {
            Some(kept) => kept == line,
            None => false,
        }
    }

    /// Makes it the text of a line. Nothing is done where it stands already.
    pub(crate) fn turn_to(&mut self, objects: &[Declared], line: &Line)
        requires line { IsSomeAnd (slice_get objects.now line.now.object) (λ d. IsKind d.kind × HasLine line.now d) }
        requires text { IsTextOf objects.now self.old }
        ensures text { IsTextOf objects.now self.new }
        ensures line { self.new.line ≡ Some line.now }
    {
        if self.is_of(line) {
            return;
        }
        self.text.clear();
        push_call(&mut self.text, objects, line);
        self.text.push_text(b" = ");
        self.line = Some(*line);
    }

    /// The bytes of the text.
    pub(crate) fn bytes(&self) -> &[u8]
        ensures { result.now ≡ self.now.text }
    {
        self.text.bytes()
    }
}
