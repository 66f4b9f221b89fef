//! Worked examples. Each function does nothing: its contract is what is proved.

ghost use Rattle.spv_graphs.specs.declared.graph.Graph.{Graph};
ghost use Rattle.spv_graph_order.specs.Order.{IsEarly};
ghost use Rattle.spv_graph_order.specs.Example.{IsTurned};

/// The second of three blocks, to which the first leads by way of the third, stands before that; the third does not.
pub fn order_examples()
    ensures early { (graph : Graph) → IsTurned graph → IsEarly graph 1 }
    ensures late { (graph : Graph) → IsTurned graph → ¬ (IsEarly graph 2) }
{}
