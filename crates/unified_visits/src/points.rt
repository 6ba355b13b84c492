//! The points that come after a point.

ghost use Rattle.std.specs.Prelude.{◌+◌, ◌≤◌, length};
ghost use Rattle.spec_calculus.specs.Bounds.{most_points};
ghost use Rattle.spec_calculus.specs.Points.{nodes, point_after};
ghost use Rattle.pi_tree.specs.Processes.{process_of};
ghost use Rattle.pi_tree.specs.Protocols.{protocol_of};
ghost use Rattle.unified_visits.specs.Places.{IsAt};

use crate::place::Place;
use pi_tree::Process;

impl<'a> Place<'a> {
    /// The next point.
    pub fn below(&self) -> Place<'a>
        requires { self.now.point ≤ most_points }
        ensures { IsAt (protocol_of self.now.protocol.now) (self.now.point + 1) result }
    {
        Place {
            alloc: self.alloc,
            protocol: self.protocol,
            point: self.point + 1,
        }
    }

    /// The point after a process that begins at the next point.
    pub fn after(&self, process: &Process) -> Place<'a>
        requires { self.now.point + length (nodes (process_of process.now)) ≤ most_points }
        ensures { IsAt (protocol_of self.now.protocol.now)
            (point_after (self.now.point + 1) (process_of process.now)) result }
    {
        Place {
            alloc: self.alloc,
            protocol: self.protocol,
            point: self.point + 1 + process.count_nodes(),
        }
    }
}
