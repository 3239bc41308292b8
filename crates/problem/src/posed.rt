use crate::settings::Settings;

// A problem of total variation: the settings of a slice, a scan of it, and what a residual costs.
#[derive_where(Clone, Copy)]
pub struct Problem<'a, S, M> {
    pub settings: &'a Settings,
    pub scan: &'a S,
    pub misfit: &'a M,
}
