// The process of a plan: its types and its nodes, which can be run.

ghost use Rattle.std.specs.Prelude.{◌≡◌, ◌≤◌, true};
ghost use Rattle.plan.specs.Process.{runnable_within};

use crate::Layout;

// Types and nodes as a file has them that is accepted within a limit for actions.
#[derive(Clone, Copy)]
pub struct Process<'a, const LIMIT: usize> {
    pub types: &'a [u8],
    pub nodes: &'a [u8],
    ghost runnable: { runnable_within LIMIT types.now nodes.now ≡ true },
}

impl<'a, const LIMIT: usize> Process<'a, LIMIT> {
    // The same process, within a limit that is no smaller.
    pub fn within<const MORE: usize>(&self) -> Process<'a, MORE>
        requires { LIMIT ≤ MORE }
        ensures same_types { result.types.now ≡ self.now.types.now }
        ensures same_nodes { result.nodes.now ≡ self.now.nodes.now }
    {
        Process {
            types: self.types,
            nodes: self.nodes,
        }
    }
}

impl Layout {
    ghost use Rattle.plan.specs.Reading.{bytes_of, read_of};

    // The process of the plan file that has this layout.
    pub fn process<'a>(self, file: &'a [u8]) -> Process<'a, 10>
        requires { read_of file.now ≡ Ok self }
        ensures types { result.types.now ≡ bytes_of file.now self.types }
        ensures nodes { result.nodes.now ≡ bytes_of file.now self.nodes }
    {
        Process {
            types: crate::part_of(file, self.types),
            nodes: crate::part_of(file, self.nodes),
        }
    }
}
