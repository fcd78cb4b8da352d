ghost use Rattle.std.specs.Prelude.{◌≡◌, false};
ghost use Rattle.charts.specs.declared.refusal.ChartRefusal.TheVariants.{DoesNotFit};
ghost use Rattle.functions.specs.Functions.{bit};
ghost use Rattle.nodes.specs.Sizes.{size, Small};
ghost use Rattle.nodes.specs.Laws.{DiagramLaws, NodeChartLaws};
ghost use Rattle.nodes.specs.NodeCharts.{place_column, onward, node_function};
ghost use Rattle.nodes.specs.NodeLaws.{node_laws};

use super::exchange::exchange;
use super::node::Node;
use super::node_chart::NodeChart;
use super::places::is_one;
use super::recode::redrawn;
use super::store::Full;
use charts::{Chart, ChartRefusal, Recoding};
use rows::Row;

impl NodeChart {
    /// The constant 0 of no arguments.
    pub fn empty() -> NodeChart
        ensures { node_function result ≡ bit false }
    {
        NodeChart {
            nodes: Row::new(Node::new(0, 0, 0)),
            arity: 0,
            root: 0,
        }
    }

    /// How many nodes there are: the size of the function.
    pub fn size(&self) -> usize
        ensures { result ≡ size (node_function self.now) }
    {
        self.nodes.as_slice().len()
    }
}

impl From<Full> for ChartRefusal {
    ghost from_gives = { λ _ e. e ≡ DoesNotFit };

    fn from(_full: Full) -> ChartRefusal {
        ChartRefusal::DoesNotFit
    }
}

impl Chart for NodeChart {
    type Place = usize;

    ghost arity = { λ s. s.arity };

    ghost column = { place_column };

    ghost root = { λ s. s.root };

    ghost next = { onward };

    ghost fits = { λ s. Small };

    ghost laws = { node_laws };

    fn count(&self) -> usize {
        self.arity
    }

    fn top(&self) -> usize {
        usize::from(self.root)
    }

    fn step(&self, depth: usize, place: usize, value: bool) -> usize {
        if depth >= self.arity {
            return place;
        }
        let n = self.number(depth, place);
        if n < 2 {
            return usize::from(n);
        }
        let node = self.nodes.as_slice()[usize::from(n) - 2];
        if usize::from(node.var) == depth {
            usize::from(node.child(value))
        } else {
            usize::from(n)
        }
    }

    fn same(&self, depth: usize, a: usize, b: usize) -> bool {
        self.alike(depth, a, b)
    }

    fn end(&self, place: usize) -> bool {
        is_one(place)
    }

    fn swap(&mut self, p: usize) -> Result<(), ChartRefusal> {
        let m = self.arity;
        if m < 2 || p > m - 2 {
            return Err(ChartRefusal::OutOfRange);
        }
        *self = exchange(self, p as u8)?;
        Ok(())
    }

    fn recode(&mut self, recoding: &Recoding<usize>) -> Result<(), ChartRefusal> {
        if !recoding.in_range(self.arity) {
            return Err(ChartRefusal::OutOfRange);
        }
        *self = redrawn(self, recoding)?;
        Ok(())
    }
}

/// A node chart is the reduced ordered diagram of its function, which fits; the places that it lacks mean zero.
pub fn node_charts_lawful()
    ensures { NodeChartLaws }
{}

/// A function has one reduced ordered diagram, up to numbering, with as many nodes as the function's size.
pub fn diagrams_lawful()
    ensures { DiagramLaws }
{}
