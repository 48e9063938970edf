//! Spans: where in a list a part of it begins and ends.
ghost use Rattle.std.specs.Prelude.{◌≡◌, length};
ghost use Rattle.day_state.specs.Spans.{IsWithin, part_of};

/// Where in a list a part of it begins and ends.
#[derive(Clone, Copy)]
pub struct Span {
    pub from: u32,
    pub to: u32,
}

/// The part of a list that a span marks.
pub fn part(list: &[u32], span: Span) -> &[u32]
    requires { IsWithin (length list.now) span }
    ensures { result.now ≡ part_of list.now span }
{
    &list[span.from as usize..span.to as usize]
}
