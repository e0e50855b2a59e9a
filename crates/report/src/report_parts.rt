//! Which part of a report comes next.

ghost use Rattle.std.specs.Prelude.{◌≡◌};

/// The part of a report that comes next.
#[derive(Clone, Copy)]
pub enum ReportPart {
    /// The first two lines.
    Head,
    /// The lines of a hart, up to its output.
    Hart(u32),
    /// A hart's output, from an operation on.
    Output(u32, usize),
    /// The line of a bus.
    Bus(u32),
    /// The line of an item, up to the states of its entries.
    Item(u32),
    /// The states of an item's entries, from a leaf on.
    States(u32, u32),
    /// The lines of operations, from one on.
    Operation(usize),
    /// The last line.
    End,
    Nothing,
}

/// How many levels of buses, harts, buses, items and operations a report shows, and whether no hart has put anything.
#[derive(Clone, Copy)]
pub struct ReportSize {
    pub depth: u32,
    pub harts: u32,
    pub buses: u32,
    pub items: u32,
    pub operations: usize,
    pub silent: bool,
}

impl ReportSize {
    ghost use Rattle.report.specs.ReportLeft.{operation_part, item_part, bus_part, hart_part};

    /// The part for this operation, or what follows the last one.
    pub fn operation_part(self, operation: usize) -> ReportPart
        ensures { result ≡ operation_part self operation }
    {
        if operation < self.operations {
            ReportPart::Operation(operation)
        } else {
            ReportPart::End
        }
    }

    /// The first part for this item, or what follows the last one.
    pub fn item_part(self, item: u32) -> ReportPart
        ensures { result ≡ item_part self item }
    {
        if item < self.items {
            ReportPart::Item(item)
        } else {
            self.operation_part(0)
        }
    }

    /// The part for this bus, or what follows the last one.
    pub fn bus_part(self, bus: u32) -> ReportPart
        ensures { result ≡ bus_part self bus }
    {
        if bus < self.buses {
            ReportPart::Bus(bus)
        } else {
            self.item_part(0)
        }
    }

    /// The first part for this hart, or what follows the last one.
    pub fn hart_part(self, hart: u32) -> ReportPart
        ensures { result ≡ hart_part self hart }
    {
        if hart < self.harts {
            ReportPart::Hart(hart)
        } else {
            self.bus_part(0)
        }
    }
}
