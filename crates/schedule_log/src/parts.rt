//! The parts of a tree by which turns are judged.

ghost use Rattle.std.specs.Prelude.{◌≡◌, ◌≤◌, ◌<◌, [], true, length, slice_get, slice_index_or};
ghost use Rattle.tree_config.specs.Levels.{leaves_of, widths_of};
ghost use Rattle.text_model.specs.Schedule.{ShapeView};
ghost use Rattle.schedule_log.specs.Shapes.{shape_view};

use crate::of_ddm_types::BusNo;
use std::marker::Model;
use tree_config::Shape;

/// The most buses of a tree.
const MOST_BUSES: usize = 256;

/// The number of children of a bus of the tree.
pub(crate) fn width_at(shape: &Shape, bus: u32) -> u32
    requires { bus < length (widths_of shape.now) }
    ensures width { result ≡ slice_index_or (widths_of shape.now) bus 0 }
    ensures few { result ≤ 16 }
{
    shape.children(BusNo(bus)).unwrap_or(0)
}

/// What a turn is judged by, laid out so that each question is one look. A contract sees the numbers of harts and of each bus's
/// children.
#[derive(Drop)]
pub(crate) struct Parts {
    harts: u32,
    buses: u32,
    widths: [u8; MOST_BUSES],
}

impl Model for Parts {
    ghost use Rattle.std.specs.Prelude.{◌≤◌, take};
    ghost use Rattle.text_model.specs.Schedule.{ShapeView};

    ghost Value = { ShapeView };

    ghost view = { λ p. record { harts = p.harts; buses = take p.buses p.widths } };

    ghost invariant = { λ p. p.buses ≤ 256 };
}

impl Parts {
    /// Those of no tree.
    pub(crate) fn none() -> Parts
        ensures { result ≡ record { harts = 0; buses = [] } }
    {
        Parts {
            harts: 0,
            buses: 0,
            widths: [0; MOST_BUSES],
        }
    }

    pub(crate) fn new(shape: &Shape) -> Parts
        ensures { result ≡ shape_view shape.now }
    {
        let buses = shape.buses();
        let mut widths = [0; MOST_BUSES];
        for bus in 0..buses {
            widths[bus as usize] = width_at(shape, bus) as u8;
        }
        Parts {
            harts: shape.harts(),
            buses,
            widths,
        }
    }

    /// Whether both are laid out the same.
    pub(crate) fn is_same(&self, other: &Parts) -> bool
        ensures { result ≡ true → self.now ≡ other.now }
    {
        self.harts == other.harts && self.buses == other.buses && self.widths == other.widths
    }

    /// The number of harts.
    #[inline]
    pub(crate) fn harts(&self) -> u32
        ensures { result ≡ self.now.harts }
    {
        self.harts
    }

    /// The number of buses.
    #[inline]
    pub(crate) fn buses(&self) -> u32
        ensures { result ≡ length self.now.buses }
    {
        self.buses
    }

    /// The number of children of a bus, where there is such a bus.
    #[inline]
    pub(crate) fn children(&self, bus: BusNo) -> Option<u32>
        ensures { result ≡ slice_get self.now.buses bus }
    {
        if bus.0 < self.buses {
            Some(u32::from(self.widths[bus.0 as usize]))
        } else {
            None
        }
    }
}
