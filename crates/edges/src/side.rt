// A side as one number, as a list of events holds it.
ghost use Rattle.std.specs.Prelude.{◌≡◌};
ghost use Rattle.edges.specs.Side.{Codable, code_of, edge_of};

use crate::event::ParamEdge;

// A number and no enum: what stands behind an event moves up at each insertion, and an enum of three bytes takes ten
// times as long for that. A `ParamEdge` takes 24 bytes, and a trace is promised to need 14 KB of stack.
#[tactic(auto, unfolding(crate::specs::Side::code_of))]
pub fn code_of(edge: ParamEdge) -> u32
    requires { Codable edge }
    ensures { result ≡ code_of edge }
{
    match edge {
        ParamEdge::U(u) => u as u32,
        ParamEdge::V(v) => 256 + v as u32,
        ParamEdge::Diagonal(u, v) => 512 + 256 * u as u32 + v as u32,
    }
}

// The side of a number.
#[tactic(auto, unfolding(crate::specs::Side::edge_of))]
pub fn edge_of(code: u32) -> ParamEdge
    ensures { result ≡ edge_of code }
{
    if code < 256 {
        ParamEdge::U(code as usize)
    } else if code < 512 {
        ParamEdge::V((code - 256) as usize)
    } else {
        let cell = (code - 512) as usize;
        ParamEdge::Diagonal(cell / 256, cell % 256)
    }
}
