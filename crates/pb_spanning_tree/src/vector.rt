//! Root priority vectors.

ghost use Rattle.std.specs.Prelude.{◌≡◌, option_to_list};
ghost use Rattle.std.specs.Option.{option_map};
ghost use Rattle.pb_rstp.specs.Roles.{best};
ghost use Rattle.pb_rstp.specs.Vectors.{is_better, own_vector};
ghost use Rattle.pb_spanning_tree.specs.TreeVectors.{vector_of};

/// The root priority vector of a bridge in the spanning tree: its path to the root. The components compare in this
/// order, and lower is better (IEEE 802.1D-2004 clauses 17.5 and 17.6).
///
/// A bridge's identifier is its priority times 2^48 plus its address, and a port's is its priority times 256 plus its
/// number. The cost is the whole sum of path costs, also if it is too great for a BPDU.
#[derive(Clone, Copy, PartialEq, Eq, Debug)]
pub struct TreeVector {
    /// The identifier of the root.
    pub root: u64,
    /// The cost of the path to the root: at most 6,400,000,000 in a sound plan.
    pub cost: u64,
    /// The identifier of the designated bridge: the next one on the path, or the bridge itself if it is the root.
    pub bridge: u64,
    /// The identifier of the designated port: the next bridge's port, or 0 if the bridge is the root.
    pub port: u16,
    /// The identifier of the bridge's own port on the path, its Root port, or 0 if the bridge is the root.
    pub receiving: u16,
}

impl TreeVector {
    /// Returns the vector of a bridge that is itself the root.
    pub(crate) fn own(id: u64) -> TreeVector
        ensures { vector_of result ≡ own_vector id }
    {
        TreeVector {
            root: id,
            cost: 0,
            bridge: id,
            port: 0,
            receiving: 0,
        }
    }

    /// Returns whether this vector is better: the first component that differs is lower.
    pub(crate) fn is_better(&self, other: &TreeVector) -> bool
        ensures { result ≡ is_better (vector_of self.now) (vector_of other.now) }
    {
        if self.root != other.root {
            return self.root < other.root;
        }
        if self.cost != other.cost {
            return self.cost < other.cost;
        }
        if self.bridge != other.bridge {
            return self.bridge < other.bridge;
        }
        if self.port != other.port {
            return self.port < other.port;
        }
        self.receiving < other.receiving
    }
}

/// Returns the better vector, or the first one if neither is better.
pub(crate) fn better(vector: TreeVector, path: Option<TreeVector>) -> TreeVector
    ensures { vector_of result ≡ best (vector_of vector) (option_to_list (option_map vector_of path)) }
{
    match path {
        None => vector,
        Some(path) => {
            if path.is_better(&vector) {
                path
            } else {
                vector
            }
        }
    }
}
