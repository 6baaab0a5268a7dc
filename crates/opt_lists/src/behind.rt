//! What a sweep knows of the statements behind the one in hand, and by which rule one goes.

/// By which rule a statement goes whose value is not wanted.
#[derive(Clone, Copy)]
pub enum Going {
    /// `pure_goes`.
    Pure,
    /// `lone_goes`.
    Lone,
    /// `pure_inside_goes`.
    PureInside,
}

/// By which rules a last statement goes behind unit, and else does nothing.
#[derive(Clone, Copy)]
pub enum Fading {
    /// `last_return_goes` and `last_return_noop`.
    LastReturn,
    /// `last_unit_goes` and `last_unit_noop`.
    LastUnit,
}

/// What a sweep knows of the statements that it has kept so far, those behind the one in hand.
#[derive(Clone, Copy)]
pub struct Behind {
    /// None is kept: the one in hand is the last one, if it stays.
    pub is_last: bool,
    /// One alone is kept, and it goes behind unit; else it does nothing.
    pub fading: Option<Fading>,
    /// Only where this is set: each is pure inside a list, and exports nothing.
    pub is_quiet: bool,
    /// A statement went, or was replaced.
    pub has_changed: bool,
    /// The last one is the expression of a `return`.
    pub is_bared: bool,
}
