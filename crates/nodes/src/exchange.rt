ghost use Rattle.std.specs.Prelude.{◌≡◌, ◌+◌, ◌*◌, ◌<◌, [], length};
ghost use Rattle.functions.specs.Functions.{exchanged};
ghost use Rattle.rows.specs.Rows.{items};
ghost use Rattle.nodes.specs.Diagrams.{at, down};
ghost use Rattle.nodes.specs.Exchanges.{num, Trio, Trios};
ghost use Rattle.nodes.specs.NodeCharts.{node_function, Draws};

use super::node::Node;
use super::node_chart::NodeChart;
use super::raw::{MOST_NODES, Raw};
use super::store::Full;

/// The three nodes that stand for one.
#[derive(Drop)]
struct Three {
    a: Node,
    b: Node,
    c: Node,
}

/// The number of `n` where each node has three.
fn tripled(n: u16) -> u16
    requires { n < 1026 }
    ensures { result ≡ num n }
{
    if n < 2 { n } else { 3 * n - 2 }
}

/// The node at `i`, whose children have smaller numbers.
fn read(chart: &NodeChart, i: usize) -> Node
    requires { i < length (items chart.now.nodes) }
    ensures is { result ≡ at (items chart.now.nodes) (i + 2) }
    ensures low { result.low < i + 2 }
    ensures high { result.high < i + 2 }
{
    chart.nodes.as_slice()[i]
}

/// Where the value of the variable `var` leads from `n`, tripled.
fn led(chart: &NodeChart, value: bool, var: u8, n: u16) -> u16
    requires { n < length (items chart.now.nodes) + 2 }
    ensures { result ≡ num (down value (items chart.now.nodes) var n) }
{
    if n > 1 {
        let node = read(chart, usize::from(n) - 2);
        if node.var == var {
            return tripled(node.child(value));
        }
    }
    tripled(n)
}

/// The nodes for the node at `i` once `p` and `p` + 1 are exchanged.
fn parted(chart: &NodeChart, p: u8, i: usize, node: Node) -> Three
    requires there { i < length (items chart.now.nodes) }
    requires small { p < 16 }
    requires is { node ≡ at (items chart.now.nodes) (i + 2) }
    requires low { node.low < i + 2 }
    requires high { node.high < i + 2 }
    ensures { Trio (items chart.now.nodes) p (i + 2) result.a result.b result.c }
{
    if node.var == p {
        let low = led(chart, false, p + 1, node.low);
        let high = led(chart, false, p + 1, node.high);
        let a = Node::new(p + 1, low, high);
        let low = led(chart, true, p + 1, node.low);
        let high = led(chart, true, p + 1, node.high);
        let b = Node::new(p + 1, low, high);
        let k = 3 * (i as u16) + 2;
        let c = Node::new(p, k, k + 1);
        return Three { a, b, c };
    }
    let a = Node::new(p, 0, 0);
    let var = if node.var == p + 1 { p } else { node.var };
    let c = Node::new(var, tripled(node.low), tripled(node.high));
    Three { a, b: a, c }
}

/// Puts the nodes with `p` and `p` + 1 exchanged into a diagram that has none.
fn spread_out(chart: &NodeChart, p: u8, raw: &mut Raw<MOST_NODES>)
    requires small { p < 16 }
    requires none { items raw.old.nodes ≡ [] }
    ensures arity { raw.new.arity ≡ raw.old.arity }
    ensures count { length (items raw.new.nodes) ≡ 3 * length (items chart.now.nodes) }
    ensures trios { Trios (items chart.now.nodes) p (length (items chart.now.nodes) + 2) (items raw.new.nodes) }
{
    for (i, node) in chart.nodes.as_slice().iter().enumerate() {
        let Three { a, b, c } = parted(chart, p, i, *node);
        raw.push(a);
        raw.push(b);
        raw.push(c);
    }
}

/// The chart with `p` and `p` + 1 exchanged, if the function's size is at most 1,024.
pub(crate) fn exchange(chart: &NodeChart, p: u8) -> Result<NodeChart, Full>
    requires { p + 1 < chart.now.arity }
    ensures { Draws chart.now.arity (exchanged p (node_function chart.now)) result }
{
    let mut raw = Raw::new(chart.arity);
    spread_out(chart, p, &mut raw);
    raw.reduced(tripled(chart.root))
}
