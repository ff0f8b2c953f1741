// A pass over a map in place: each number becomes what is made of its window.
#![tactic(auto)]

ghost use Rattle.std.specs.Prelude.{◌≡◌, true, ◌≤◌};
ghost use Rattle.window.specs.Windows.{window_of};
ghost use Rattle.buffers.specs.Fill.{Mapped};
ghost use Rattle.row_filter.specs.declared.Leaf.TheVariants.{Highest};
ghost use Rattle.row_filter.specs.Filter.{leaf, Filterable, Between};

use geometry::{Head, Kind};
use row_filter::Leaf;

// Each cell between the edges gets the highest of its window.
fn highest_rows(head: Head, edge: usize, map: &mut [u8])
    requires { Filterable head edge map.old × Between head edge × (1 ≤ edge) }
    ensures { Mapped head (λ c. leaf Highest head.kind (window_of head map.old c))
        map.old map.new }
{
    let kind = head.kind;
    match kind {
        Kind::Diamond => cross_filter::cross_rows(head, edge, map),
        Kind::Square => square_filter::square_rows(head, edge, map),
    }
}

// Whether a pass is for the highest, with an edge.
fn is_growth(made: Leaf, edge: usize) -> bool
    ensures { result ≡ true → (made ≡ Highest) × (1 ≤ edge) }
{
    match made {
        Leaf::Axis => false,
        Leaf::Highest => 0 < edge,
    }
}

// Each cell gets what is made of its window; bytes past the plate stay. With an edge, a map that is 0 one further than the edge
// from its border: only the cells between the edges are written, since all others stay 0.
pub fn filter_map(head: Head, made: Leaf, edge: usize, map: &mut [u8])
    requires { Filterable head edge map.old }
    ensures { Mapped head (λ c. leaf made head.kind (window_of head map.old c))
        map.old map.new }
{
    if (head.width as usize) <= 2 * edge {
        return;
    }
    if (head.height as usize) <= 2 * edge {
        return;
    }
    if is_growth(made, edge) {
        highest_rows(head, edge, map);
    } else {
        row_filter::filter_rows(made, head, edge, map);
    }
}
