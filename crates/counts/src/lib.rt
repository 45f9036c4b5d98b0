// The table of counts of a model that is read: a row for each mechanism and for each component. Columns taken out.
#![tactic(auto)]

ghost use Rattle.std.specs.Prelude.{◌≤◌, length};
ghost use Rattle.counts.specs.Rows.{FirstRows};

// The counts of a mechanism: its detectors, its observables, its components. Then those of a component.
#[repr(C)]
#[derive(Clone, Copy)]
pub struct Row {
    pub detectors: u8,
    pub observables: u8,
    pub components: u8,
    pub component_detectors: u8,
    pub component_observables: u8,
}

// A row of zeros, for a table that is made.
pub const ROW: Row = Row {
    detectors: 0,
    observables: 0,
    components: 0,
    component_detectors: 0,
    component_observables: 0,
};

// The first rows of a table, column by column, as slices can lend them.
#[derive(Drop)]
pub struct Columns {
    pub detectors: [u8; 1024],
    pub observables: [u8; 1024],
    pub components: [u8; 1024],
    pub component_detectors: [u8; 1024],
    pub component_observables: [u8; 1024],
}

// The first n rows.
pub fn take_columns(s: &[Row], n: usize) -> Columns
    requires { (n ≤ length s.now) × (n ≤ 1024) }
    ensures { FirstRows n s.now result }
{
    let mut out = Columns {
        detectors: [0; 1024],
        observables: [0; 1024],
        components: [0; 1024],
        component_detectors: [0; 1024],
        component_observables: [0; 1024],
    };
    for i in 0..n {
        let row = s[i];
        out.detectors[i] = row.detectors;
        out.observables[i] = row.observables;
        out.components[i] = row.components;
        out.component_detectors[i] = row.component_detectors;
        out.component_observables[i] = row.component_observables;
    }
    out
}
