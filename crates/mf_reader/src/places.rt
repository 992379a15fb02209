/// Where an expression stands.
#[derive(Clone, Copy)]
pub(crate) enum ExprPlace {
    /// In a condition or an effect.
    Action,
    /// In a metric, which also knows the total time.
    Metric,
}

/// Where an effect stands.
#[derive(Clone, Copy)]
pub(crate) enum EffectPlace {
    Action,
    /// Inside the effect of a `when`.
    When,
}
