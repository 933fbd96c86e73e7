//! Nodes that are made one after another in one store, and what is done with them and asked of them.
use crate::connectives::tell_connectives;
use crate::live::{are_live, made, table_node, table_of, tell_asked, tell_order, tell_size};
use crate::made::{applied, fixed, variable_node};
use crate::orders::{begun, put, tell_sift, tell_sifted};
use crate::swaps::{Entry, mark, tell_kept, tell_room, tell_swap, tell_tried};
use call_rows::{Page, Row};
use diagram_ops::Diagrams;
use node_reclaim::reclaim;
use node_store::{FALSE, Node, Store, StoreStop, TRUE};

/// Diagrams, the nodes that were made, FALSE and TRUE before them, and what numbers had.
#[derive(Drop)]
struct Machine {
    d: Diagrams,
    nodes: Vec<Node>,
    before: Vec<Entry>,
}

/// Begins with so many variables, exchanges of their order, nodes and cached answers, and does what the words behind say.
pub fn tell(row: &mut Row<'_>, page: &mut Page) {
    let vars = row.small(128);
    match begun(page.alloc, vars, row.word(), row.count(), row.count()) {
        Ok(d) => {
            let mut m = Machine {
                d,
                nodes: Vec::new(page.alloc),
                before: Vec::new(page.alloc),
            };
            m.push(Ok(FALSE), page);
            m.push(Ok(TRUE), page);
            m.tell_words(row, page);
            drop(m);
        }
        Err(stop) => page.show(&stop),
    }
}

impl Machine {
    // Adds a node, or tells why there is none.
    fn push(&mut self, found: Result<Node, StoreStop>, page: &mut Page) {
        match found {
            Ok(n) => {
                if self.nodes.push(n).is_err() {
                    page.text(" no memory");
                }
            }
            Err(stop) => page.show(&stop),
        }
    }

    fn node(&self, place: u32) -> Node {
        match self.nodes.get(place as usize) {
            Some(n) => *n,
            None => FALSE,
        }
    }

    fn tell_words(&mut self, row: &mut Row<'_>, page: &mut Page) {
        for _ in 0..1_000 {
            if !row.is_over() {
                self.tell_word(row, page);
            }
        }
    }

    // Makes a node, or goes on to other words.
    fn tell_word(&mut self, row: &mut Row<'_>, page: &mut Page) {
        let found = match row.name() {
            "var" => variable_node(&mut self.d, row.small(128)),
            "make" => self.made(row),
            "table" => self.made_table(row.count()),
            "apply" => self.applied(row),
            "fix" => self.fixed(row),
            word => return self.act(word, row, page),
        };
        self.push(found, page);
    }

    fn made(&mut self, row: &mut Row<'_>) -> Result<Node, StoreStop> {
        let var = row.small(128);
        let low = self.node(row.count());
        let high = self.node(row.count());
        self.d.forget();
        made(self.d.lend(), var, low, high)
    }

    fn made_table(&mut self, table: u32) -> Result<Node, StoreStop> {
        self.d.forget();
        table_node(self.d.lend(), table)
    }

    fn applied(&mut self, row: &mut Row<'_>) -> Result<Node, StoreStop> {
        let table = row.small(255);
        let f = self.node(row.count());
        let g = self.node(row.count());
        let h = self.node(row.count());
        applied(&mut self.d, table, [f, g, h])
    }

    fn fixed(&mut self, row: &mut Row<'_>) -> Result<Node, StoreStop> {
        let n = self.node(row.count());
        fixed(&mut self.d, n, row.small(128), row.count() == 1)
    }

    // Changes the store, or goes on to questions.
    fn act(&mut self, word: &str, row: &mut Row<'_>, page: &mut Page) {
        match word {
            "forget" => self.d.forget(),
            "reclaim" => self.reclaim(row.word(), page),
            "swap" => self.swap(row.small(127), page),
            "try" => self.try_swap(row.small(127), page),
            "sift" => {
                let root = self.node(row.count());
                tell_sift(&mut self.d, root, row.small(128), page);
            }
            "sift all" => {
                let root = self.node(row.count());
                tell_sifted(&mut self.d, root, page);
            }
            "connectives" => {
                let nodes = self.nodes.get(2..).unwrap_or(&[]);
                tell_connectives(&mut self.d, row.small(255), nodes, page);
            }
            "mark" => page.show(&mark(self.d.store(), &mut self.before)),
            "lend" => self.lend(row.small(128), row.count(), page),
            _ => self.ask(word, row, page),
        }
    }

    // Puts a store of so many variables and nodes in the place of this one. How many nodes that had.
    fn lend(&mut self, vars: u8, limit: u32, page: &mut Page) {
        if vars <= 128 && 1 <= limit && limit <= 1_000 {
            match Store::new(page.alloc, vars, limit) {
                Ok(store) => {
                    page.show(&self.d.store().held());
                    put(&mut self.d, store);
                }
                Err(stop) => page.show(&stop),
            }
        }
    }

    fn swap(&mut self, level: u8, page: &mut Page) {
        self.d.forget();
        tell_swap(page.alloc, self.d.lend(), level, page);
    }

    fn try_swap(&mut self, level: u8, page: &mut Page) {
        self.d.forget();
        tell_tried(page.alloc, self.d.lend(), level, page);
    }

    // The nodes of places, each a letter from a on: a is FALSE, b TRUE, c the first node that was made.
    fn roots(&self, places: &[u8], page: &mut Page) -> Vec<Node> {
        let mut roots = Vec::new(page.alloc);
        for letter in places {
            let root = self.node(u32::from(letter.wrapping_sub(b'a')));
            page.whole = roots.push(root).is_ok() && page.whole;
        }
        roots
    }

    // How many nodes go.
    fn reclaim(&mut self, places: &[u8], page: &mut Page) {
        let roots = self.roots(places, page);
        if are_live(self.d.store(), &roots) {
            page.show(&reclaim(page.alloc, &mut self.d, &roots));
        }
    }

    fn ask(&self, word: &str, row: &mut Row<'_>, page: &mut Page) {
        let store = self.d.store();
        match word {
            "held" => page.show(&(store.held(), store.limit(), self.d.cached() > 0)),
            "tables" => self.tell_tables(page),
            "same" => page.show(&(self.node(row.count()) == self.node(row.count()))),
            "size" => tell_size(store, &[self.node(row.count())], page),
            "sizes" => tell_size(store, &self.roots(row.word(), page), page),
            "asked" => {
                let f = self.node(row.count());
                let g = self.node(row.count());
                tell_asked(store, f, g, row.small(128), bit_of(row.name()), page);
            }
            "order" => tell_order(&store.order(), page),
            "room" => tell_room(store, row.small(127), page),
            "kept" => tell_kept(store, &self.before, row.count() == 1, row.count(), page),
            "number" => page.show(&self.node(row.count()).0),
            "truth" => page.show(&table_of(store, self.node(row.count()))),
            "below" => page.show(&self.are_below(row.count())),
            "copied" => self.tell_copy(page),
            _ => page.text(" no such question"),
        }
    }

    // Whether all nodes have numbers below this one.
    fn are_below(&self, most: u32) -> bool {
        let mut all = true;
        for n in &self.nodes {
            all = all && n.0 < most;
        }
        all
    }

    // The truth tables of all nodes.
    fn tell_tables(&self, page: &mut Page) {
        for n in &self.nodes {
            page.show(&table_of(self.d.store(), *n).unwrap_or(0));
        }
    }

    // How many nodes a copy holds, its limit, and whether all nodes have their parts in it.
    fn tell_copy(&self, page: &mut Page) {
        match self.d.store().try_copy() {
            Ok(copy) => {
                let mut same = true;
                for n in &self.nodes {
                    same = same && copy.parts_of(*n) == self.d.store().parts_of(*n);
                }
                page.show(&(copy.held(), copy.limit(), same));
            }
            Err(_) => page.text(" no memory"),
        }
    }
}

// A bit, or none where the word is no digit.
fn bit_of(word: &str) -> Option<bool> {
    match word {
        "0" => Some(false),
        "1" => Some(true),
        _ => None,
    }
}
