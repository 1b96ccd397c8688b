/// What is said where nodes are to be searched by window.
pub const NODES_HAVE_NO_BOXES: &str =
    "nodes have no boxes, so a NOD file cannot be searched by window";
