//! A short list of spans, by value.
ghost use Rattle.std.specs.Prelude.{◌≡◌, ◌<◌, ◌≤◌, ◌↔◌, ◌++◌, [], ◌∷◌, IfSome, IsSome, length};

use crate::edge::Span;
use std::marker::Model;

/// How many spans there are at most.
const MAX_SPANS: usize = 8;

/// Up to 8 spans. Contracts see the list.
#[derive(Clone, Copy, Debug, PartialEq, Eq)]
pub struct Spans {
    cells: [Span; MAX_SPANS],
    count: usize,
}

impl Model for Spans {
    ghost use Rattle.std.specs.Prelude.{List, take, length, replicate, ◌++◌, ◌-◌};
    ghost use Rattle.line_base.specs.declared.edge.Span.{Span};
    ghost use Rattle.line_base.specs.Spans.{IsKept, no_span};

    ghost Value = { List Span };

    ghost view = { λ s. take s.count s.cells };

    ghost invariant = { λ s. IsKept s.cells s.count };

    ghost inverse = { λ spans. record {
      cells = spans ++ replicate (8 - length spans) no_span;
      count = length spans;
    } };
}

impl Spans {
    /// The list of these spans, or `None` exactly where there are more than 8.
    pub fn new(spans: &[Span]) -> Option<Spans>
        ensures values { IfSome result (λ kept. kept ≡ spans.now) }
        ensures accepted { IsSome result ↔ (length spans.now ≤ 8) }
    {
        if spans.len() > MAX_SPANS {
            return None;
        }
        let mut cells = [Span { low: 0, high: 0 }; MAX_SPANS];
        let count = spans.len();
        cells[..count].copy_from_slice(spans);
        Some(Spans { cells, count })
    }

    /// Puts one more span at the end of fewer than 8.
    pub fn push(&mut self, span: Span)
        requires { length self.old < 8 }
        ensures { self.new ≡ self.old ++ span ∷ [] }
    {
        self.cells[self.count] = span;
        self.count += 1;
    }

    /// The spans, at most 8.
    pub fn as_slice(&self) -> &[Span]
        ensures value { result.now ≡ self.now }
        ensures few { length result.now ≤ 8 }
    {
        &self.cells[..self.count]
    }
}
