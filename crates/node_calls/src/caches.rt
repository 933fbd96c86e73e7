//! The unique table of a variable, the computed cache, and the inner results of calls.
use call_rows::{Page, Row};
use computed_cache::{Cache, Key};
use memos::Memo;
use tables::NodeTable;

/// How many nodes a table of them has.
const MANY: u32 = 3000;

/// Fills a table, thins it, and fills it again. Tells how many nodes are added, are there, and are found each time.
pub fn tell_table(page: &mut Page) {
    let mut table = NodeTable::new(page.alloc);
    page.show(&(filled(&mut table), table.len(), found(&table)));
    thin(&mut table);
    page.show(&(table.len(), found(&table)));
    table.refresh();
    page.show(&found(&table));
    tell_copy(&table, page);
    tell_listed(&table, page);
    page.show(&(filled(&mut table), table.len(), found(&table)));
}

// How many of the nodes whose number leaves no rest by 3 are found, how many of the others, and how many that aren't there.
fn found(table: &NodeTable) -> (u32, u32, u32) {
    let (mut thirds, mut others, mut more) = (0u32, 0u32, 0u32);
    for i in 0..MANY {
        let is_found = table.find(i, 2 * i + 1) == Some(i + 2);
        if i % 3 == 0 {
            thirds = thirds.wrapping_add(u32::from(is_found));
        } else {
            others = others.wrapping_add(u32::from(is_found));
        }
        more = more.wrapping_add(u32::from(table.find(2 * i + 1, i).is_some()));
    }
    (thirds, others, more)
}

// Adds the node `i + 2`. Whether it was not there, and is added.
fn added(table: &mut NodeTable, i: u32) -> bool {
    if i >= MANY {
        return false;
    }
    let end = table.seek(i, 2 * i + 1);
    if end.node().is_some() {
        return false;
    }
    table.add_at(end, i, 2 * i + 1, i + 2).is_ok()
}

// Adds the nodes that aren't there. The answer is how many.
fn filled(table: &mut NodeTable) -> u32 {
    let mut count = 0u32;
    for i in 0..MANY {
        count = count.wrapping_add(u32::from(added(table, i)));
    }
    count
}

// Takes the nodes away whose number leaves no rest by 3, and nodes that are not there.
fn thin(table: &mut NodeTable) {
    for i in 0..MANY {
        if i % 3 == 0 {
            table.remove(i, 2 * i + 1);
            table.remove(2 * i + 1, i);
        }
    }
}

fn tell_copy(table: &NodeTable, page: &mut Page) {
    match table.try_copy() {
        Ok(copy) => page.show(&found(&copy)),
        Err(_) => page.text(" no memory"),
    }
}

// How many nodes a table lists, and their sum.
fn tell_listed(table: &NodeTable, page: &mut Page) {
    match table.nodes() {
        Ok(nodes) => {
            let mut sum = 0u64;
            for node in &nodes {
                sum = sum.wrapping_add(u64::from(*node));
            }
            page.show(&(nodes.len(), sum));
        }
        Err(_) => page.text(" no memory"),
    }
}

/// A cache of so many entries under a table, and what is done with it.
pub fn tell_cache(row: &mut Row<'_>, page: &mut Page) {
    let capacity = row.count();
    let table = row.small(255);
    if capacity < 1 || capacity > 100 {
        return;
    }
    match Cache::new(page.alloc, capacity) {
        Ok(mut cache) => {
            for _ in 0..100 {
                if !row.is_over() {
                    tell_use(&mut cache, table, row, page);
                }
            }
        }
        Err(_) => page.text(" no memory"),
    }
}

fn tell_use(cache: &mut Cache, table: u8, row: &mut Row<'_>, page: &mut Page) {
    let word = row.name();
    let key = Key {
        table,
        f: row.count(),
        g: 3,
        h: 0,
    };
    match word {
        "keep" => page.show(&cache.keep(key, row.count()).is_ok()),
        "look" => page.show(&cache.look(&key)),
        _ => cache.drop_all(),
    }
    page.show(&cache.len());
}

/// Calls with so many results each, one after another: how many are added, and how many are found after that.
pub fn tell_memo(row: &mut Row<'_>, page: &mut Page) {
    let mut memo = Memo::new(page.alloc);
    for _ in 0..100 {
        if !row.is_over() {
            let results = row.count().min(20_000);
            let first = row.count();
            memo.begin();
            page.show(&(
                results_added(&mut memo, results, first),
                results_found(&memo, results, first),
            ));
        }
    }
}

// Adds results whose nodes are `first` and the numbers after it. How many were not there, and are added.
fn results_added(memo: &mut Memo, results: u32, first: u32) -> u32 {
    let mut count = 0u32;
    for i in 0..results {
        if i < 20_000 {
            count = count.wrapping_add(u32::from(is_result_added(memo, i, first.wrapping_add(i))));
        }
    }
    count
}

fn is_result_added(memo: &mut Memo, i: u32, node: u32) -> bool {
    if i >= 20_000 || memo.find(i, i + 1, 7).is_some() {
        return false;
    }
    memo.add(i, i + 1, 7, node).is_ok()
}

// How many results are found, how many others, and whether there is one behind them.
fn results_found(memo: &Memo, results: u32, first: u32) -> (u32, u32, bool) {
    let (mut count, mut others) = (0u32, 0u32);
    for i in 0..results.min(20_000) {
        let found = memo.find(i, i + 1, 7) == Some(first.wrapping_add(i));
        count = count.wrapping_add(u32::from(found));
        others = others.wrapping_add(u32::from(memo.find(i, i + 1, 8).is_some()));
    }
    let behind = memo.find(results, results.wrapping_add(1), 7).is_some();
    (count, others, behind)
}
