//! [`StoredGraph`]: a graph that keeps its text in each type.
ghost use Rattle.std.specs.Prelude.{◌≡◌, IfOk, IfSome, IsTrue};
ghost use Rattle.stored_bytes.specs.Digests.{digest_of};
ghost use Rattle.pod_command.specs.GraphTexts.{IsTextOf, text_in, type_name};

use crate::graph_type::GraphType;
use once_cell::race::OnceBox;
use pod_base::{Bytes, Mem};
use rdf_graph::{Graph, Triple};
use std::alloc::Global;
use std::fmt;
use std::marker::Model;

/// A graph's text in a type, and the digest of that representation: of the type's name and of the
/// text.
#[derive(Debug, Drop)]
pub struct GraphText {
    pub text: Bytes,
    pub digest: [u8; 32],
}

/// A text of a graph that is kept, and of which graph and in which type it is.
#[derive(Drop)]
struct Kept {
    graph: Graph,
    media: GraphType,
    text: Bytes,
    digest: [u8; 32],
    ghost is_text: { text ≡ text_in media graph },
    ghost is_digest: { digest ≡ digest_of (type_name media) text },
}

/// A cell for a text of a graph, which the first reader fills. Contracts see nothing of it.
#[derive(Drop)]
struct TextCell {
    cell: OnceBox<Kept>,
}

impl Model for TextCell {
    ghost use Rattle.std.specs.Prelude.{⊤};

    ghost Value = { ⊤ };

    ghost view = { λ _. tt };
}

/// Whether two triples of graphs are the same.
fn is_same_triple(a: &Triple, b: &Triple) -> bool
    ensures { IsTrue result → a.now ≡ b.now }
{
    a.s == b.s && a.p == b.p && a.o == b.o
}

/// Whether two graphs have the same triples.
fn is_same(a: &[Triple], b: &[Triple]) -> bool
    ensures { IsTrue result → a.now ≡ b.now }
{
    if a.len() != b.len() {
        return false;
    }
    for i in 0..a.len() {
        if !is_same_triple(&a[i], &b[i]) {
            return false;
        }
    }
    true
}

impl TextCell {
    /// An empty cell. It takes no memory.
    fn new(alloc: Global) -> TextCell {
        TextCell {
            cell: OnceBox::new(alloc),
        }
    }

    /// The text of a graph in a type, where the cell has it.
    fn text_of(&self, alloc: Global, media: GraphType, graph: &Graph) -> Option<GraphText>
        ensures { IfSome result (IsTextOf media graph.now) }
    {
        let kept = self.cell.get()?;
        if kept.media != media || !is_same(kept.graph.as_slice(), graph.as_slice()) {
            return None;
        }
        match kept.text.copy(alloc) {
            Ok(text) => Some(GraphText {
                text,
                digest: kept.digest,
            }),
            Err(_) => None,
        }
    }

    /// Keeps the text of a graph in a type in the cell, where none is kept.
    fn keep(&self, alloc: Global, media: GraphType, graph: &Graph, shown: &GraphText) -> Mem<()>
        requires { IsTextOf media graph.now shown.now }
    {
        let kept = Kept {
            graph: graph.copy(alloc)?,
            media,
            text: shown.text.copy(alloc)?,
            digest: shown.digest,
        };
        if let Ok(kept) = Box::new(alloc, kept) {
            let _first = self.cell.set(kept);
        }
        Ok(())
    }
}

/// A graph that keeps the text of what is shown of it in each type, from the first time on that
/// this is made. A container is shown with its members, so that graph is given each time. Contracts
/// see the triples.
#[derive(Drop)]
pub struct StoredGraph {
    graph: Graph,
    turtle: TextCell,
    json_ld: TextCell,
}

impl Model for StoredGraph {
    ghost use Rattle.std.specs.Prelude.{List};
    ghost use Rattle.rdf_graph.specs.declared.triple.Triple.{Triple};

    ghost Value = { List Triple };

    ghost view = { λ stored. stored.graph };
}

impl StoredGraph {
    /// A stored graph without texts yet. It takes no memory.
    pub fn new(alloc: Global, graph: Graph) -> StoredGraph
        ensures { result ≡ graph }
    {
        StoredGraph {
            graph,
            turtle: TextCell::new(alloc),
            json_ld: TextCell::new(alloc),
        }
    }

    /// The stored graph without its texts.
    pub fn graph(&self) -> &Graph
        ensures { result.now ≡ self.now }
    {
        &self.graph
    }

    /// An equal stored graph. Its texts are made anew.
    pub fn copy(&self, alloc: Global) -> Mem<StoredGraph>
        ensures { IfOk result (λ copy. copy ≡ self.now) }
    {
        let graph = self.graph.copy(alloc)?;
        Ok(StoredGraph::new(alloc, graph))
    }

    /// The cell for the text in a type.
    fn cell(&self, media: GraphType) -> &TextCell {
        match media {
            GraphType::Turtle => &self.turtle,
            GraphType::JsonLd => &self.json_ld,
        }
    }

    /// The text in a type of what is shown of the stored graph, where it is kept.
    pub fn kept_text(&self, alloc: Global, media: GraphType, shown: &Graph) -> Option<GraphText>
        ensures { IfSome result (IsTextOf media shown.now) }
    {
        self.cell(media).text_of(alloc, media, shown)
    }

    /// Keeps the text in a type of what is shown of the stored graph, where there is memory and none
    /// in that type is kept.
    pub fn keep_text(&self, alloc: Global, media: GraphType, shown: &Graph, text: &GraphText)
        requires { IsTextOf media shown.now text.now }
    {
        let _kept = self.cell(media).keep(alloc, media, shown, text);
    }
}

impl fmt::Debug for StoredGraph {
    fn fmt<W: fmt::Write>(&self, f: &mut fmt::Formatter<W>) -> fmt::Result {
        fmt::Debug::fmt(&self.graph, f)
    }
}
