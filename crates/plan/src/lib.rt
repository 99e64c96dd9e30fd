// The plan file: a reader that turns away every broken file by document 01's number for it, and takes every other one.
#![tactic(auto)]

ghost use Rattle.std.specs.Prelude.{◌≡◌, ◌≤◌, ◌+◌, length, IfOk};
ghost use Rattle.plan.specs.PlanFile.{Bytes};
ghost use Rattle.plan.specs.Reading.{bytes_of, block_at, end_of, read_within, read_of};

use blocks::{Heading, Part};

pub mod processes;

pub use processes::Process;

// The limits of a plan file.
pub const MOST_ACTIONS: u8 = 10;

pub const MOST_PAIRS: u8 = 21;

pub const MOST_NODES: u8 = 63;

pub const MOST_RULE: u8 = 127;

// The bytes of the largest plan file, its four headings among them.
pub const MOST_BYTES: usize = 384;

// Why a file is turned away.
#[derive(Clone, Copy, Debug, PartialEq, Eq)]
pub enum Fault {
    Cut,
    Kind,
    Length,
    Types,
    Pairs,
    Nodes(nodes::Fault),
    Rule,
}

impl From<nodes::Fault> for Fault {
    ghost use Rattle.plan.specs.declared.Fault.TheVariants.{Nodes};

    ghost from_gives = { λ f r. r ≡ Nodes f };

    fn from(f: nodes::Fault) -> Fault {
        Fault::Nodes(f)
    }
}

impl Fault {
    ghost use Rattle.plan.specs.Fault.{number};

    // Document 01's number for it.
    pub fn number(self) -> u8
        ensures { result ≡ number self }
    {
        match self {
            Fault::Cut => 1,
            Fault::Kind => 2,
            Fault::Length => 3,
            Fault::Types => 4,
            Fault::Pairs => 5,
            Fault::Nodes(f) => f.number(),
            Fault::Rule => 9,
        }
    }
}

// Where the four bodies of a plan file lie. The number of its actions is `types.len`.
#[derive(Clone, Copy)]
pub struct Layout {
    pub types: Part,
    pub pairs: Part,
    pub nodes: Part,
    pub rule: Part,
}

// The four blocks of a plan file.
#[derive(Clone, Copy)]
enum Kind {
    Types,
    Pairs,
    Nodes,
    Rule,
}

impl Kind {
    ghost use Rattle.plan.specs.declared.Kind.TheVariants.{Nodes};
    ghost use Rattle.plan.specs.Kind.{number};
    ghost use Rattle.plan.specs.Reading.{length_ok, contents};

    fn number(self) -> usize
        ensures { result ≡ number self }
    {
        match self {
            Kind::Types => 1,
            Kind::Pairs => 2,
            Kind::Nodes => 3,
            Kind::Rule => 4,
        }
    }

    // Whether a body of the kind may have `n` bytes, where there may be `most` of what it lists.
    fn length_ok(self, most: u8, n: usize) -> bool
        ensures { result ≡ length_ok (number self) most n }
    {
        let most = usize::from(most);
        match self {
            Kind::Types | Kind::Rule => 1 <= n && n <= most,
            Kind::Pairs => n % 2 == 0 && n <= 2 * most,
            Kind::Nodes => n % 3 == 0 && 1 <= n && n <= 3 * most,
        }
    }

    // The first check of a body's contents that fails.
    fn check(self, actions: usize, b: &[u8]) -> Result<(), Fault>
        requires { self ≡ Nodes → length b.now ≤ 189 }
        ensures { result ≡ contents (number self) actions b.now }
    {
        match self {
            Kind::Types if !bodies::types::types_ok(b) => Err(Fault::Types),
            Kind::Pairs if !bodies::pairs::pairs_ok(b, actions) => Err(Fault::Pairs),
            Kind::Rule if !bodies::rule::rule_ok(b, actions) => Err(Fault::Rule),
            Kind::Nodes => Ok(nodes::check(b, actions)?),
            _ => Ok(()),
        }
    }

    // Where the body of the block at `at` lies, which is to be of the kind.
    fn body_at(self, file: &[u8], at: usize, most: u8, actions: usize) -> Result<Part, Fault>
        requires { self ≡ Nodes → most ≤ 63 }
        ensures value { result ≡ block_at file.now at (number self) most actions }
        ensures inside { IfOk result (λ p. end_of p ≤ length file.now) }
    {
        let Heading { kind, len } = blocks::heading_at(file, at).ok_or(Fault::Cut)?;
        if kind != self.number() {
            return Err(Fault::Kind);
        }
        if !self.length_ok(most, len) {
            return Err(Fault::Length);
        }
        if !blocks::body_fits(file, at, len) {
            return Err(Fault::Cut);
        }
        let at = at + 4;
        self.check(actions, &file[at..at + len])?;
        Ok(Part { at, len })
    }
}

// Reads a file of at most `action_limit` actions and `pair_limit` pairs. Whatever a caller lends is what the promises call bytes.
pub fn read_within(file: &[u8], action_limit: u8, pair_limit: u8) -> Result<Layout, Fault>
    ensures value { result ≡ read_within action_limit pair_limit file.now }
    ensures bytes { Bytes file.now }
{
    let types = Kind::Types.body_at(file, 0, action_limit, 0)?;
    let actions = types.len;
    let pairs = Kind::Pairs.body_at(file, types.at + types.len, pair_limit, actions)?;
    let nodes = Kind::Nodes.body_at(file, pairs.at + pairs.len, MOST_NODES, actions)?;
    let rule = Kind::Rule.body_at(file, nodes.at + nodes.len, MOST_RULE, actions)?;
    if rule.at + rule.len == file.len() {
        Ok(Layout {
            types,
            pairs,
            nodes,
            rule,
        })
    } else {
        Err(Fault::Cut)
    }
}

// Reads a plan file: where its bodies lie, or why it is turned away.
pub fn read(file: &[u8]) -> Result<Layout, Fault>
    ensures { result ≡ read_of file.now }
{
    read_within(file, MOST_ACTIONS, MOST_PAIRS)
}

// The bytes of a part of a plan file.
pub fn part_of(file: &[u8], p: Part) -> &[u8]
    requires { end_of p ≤ length file.now }
    ensures { result.now ≡ bytes_of file.now p }
{
    &file[p.at..p.at + p.len]
}
