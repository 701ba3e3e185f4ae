//! A tree and its snapshots, driven by lines of text.
use hk_base::{KeyName, NoMemory, Text, read_number};
use inode_tree::{Kind, Row, Tree};
use name_calls::NPath;
use snap_store::{MOST_SNAPSHOTS, Snaps};
use std::alloc::Global;
use std::process::Abort;

/// A tree, the snapshots of its directories, and what the lines answered so far.
///
/// A line is a verb and its words, as in `take 1 s`: take the snapshot `s` of the directory with id 1.
/// Each line answers a line: what it found, or whether it was done.
#[derive(Drop)]
pub struct Bench {
    alloc: Global,
    tree: Tree,
    snaps: Snaps,
    answers: String,
}

fn path(rt: &impl Abort, alloc: Global, text: &str) -> NPath {
    NPath::read(alloc, text.as_bytes()).expect(rt, "a path")
}

fn name(rt: &impl Abort, alloc: Global, text: &str) -> Text {
    Text::of(String::from_str(alloc, text).expect(rt, "memory"))
}

fn number(rt: &impl Abort, text: &str) -> u64 {
    read_number(text.as_bytes()).expect(rt, "a number")
}

/// Makes a directory or a file if the rules allow it. Returns whether they did.
fn make(tree: &mut Tree, path: &NPath, id: u64, directory: bool) -> Result<bool, NoMemory> {
    if tree.find(path).is_some() || tree.row(id).is_some() || tree.rows() >= 1_000_000 {
        return Ok(false);
    }
    match tree.find_parent(path) {
        Some(above) => {
            if !above.kind.is_dir() {
                return Ok(false);
            }
        }
        None => return Ok(false),
    }
    if directory {
        tree.mkdir(path, id)?;
    } else {
        tree.add_file(path, id, None)?;
    }
    Ok(true)
}

/// Removes what is at a path, except the root.
fn remove(tree: &mut Tree, path: &NPath) {
    if path.len() > 0 {
        tree.remove(path);
    }
}

/// Moves what is at a path to another path if the rules allow it. Returns whether they did.
fn rename(tree: &mut Tree, path: &NPath, to: &NPath) -> Result<bool, NoMemory> {
    let _ = tree.rows();
    let id = match tree.find(path) {
        Some(row) => row.id,
        None => return Ok(false),
    };
    if tree.find(to).is_some() || tree.at_or_above(id, to) || !tree.move_fits(path, to) {
        return Ok(false);
    }
    match tree.find_parent(to) {
        Some(above) => {
            if !above.kind.is_dir() {
                return Ok(false);
            }
        }
        None => return Ok(false),
    }
    tree.reserve_rename(path, to)?;
    tree.rename(path, to)?;
    Ok(true)
}

/// Marks the directory with this id. Returns whether there is one.
fn mark(tree: &mut Tree, id: u64, key: KeyName) -> bool {
    match tree.row(id) {
        Some(row) => {
            if !row.kind.is_dir() {
                return false;
            }
        }
        None => return false,
    }
    tree.set_key(id, key);
    true
}

/// Takes a snapshot if the rules allow it. Returns whether they did.
fn take(
    alloc: Global,
    snaps: &mut Snaps,
    tree: &Tree,
    dir: u64,
    name: Text,
) -> Result<bool, NoMemory> {
    match tree.row(dir) {
        Some(row) => {
            if !row.kind.is_dir() {
                return Ok(false);
            }
        }
        None => return Ok(false),
    }
    match snaps.look(dir, &name, &NPath::root(alloc)) {
        Some(_) => return Ok(false),
        None => {}
    }
    match snaps.count(dir) {
        Some(count) => {
            if count >= MOST_SNAPSHOTS {
                return Ok(false);
            }
        }
        None => return Ok(false),
    }
    snaps.take(tree, dir, &name)?;
    Ok(true)
}

/// Disallows snapshots of a directory if it may have some and has none. Returns whether it did.
fn disallow(snaps: &mut Snaps, dir: u64) -> bool {
    match snaps.count(dir) {
        Some(count) => {
            if count != 0 {
                return false;
            }
        }
        None => return false,
    }
    snaps.disallow(dir);
    true
}

/// Disallows snapshots of the directories at and below a path if they have none. Returns whether it
/// did.
fn disallow_below(snaps: &mut Snaps, tree: &Tree, path: &NPath) -> bool {
    if snaps.holds(tree, path) {
        return false;
    }
    snaps.disallow_below(tree, path);
    true
}

impl Bench {
    pub fn new(rt: &impl Abort, alloc: Global) -> Bench {
        Bench {
            alloc,
            tree: Tree::new(alloc).expect(rt, "memory"),
            snaps: Snaps::new(alloc),
            answers: String::new(alloc),
        }
    }

    pub fn answers(&self) -> &str {
        self.answers.as_str()
    }

    fn say(&mut self, rt: &impl Abort, text: &str) {
        self.answers.push_str(text).expect(rt, "memory");
        self.answers.push('\n').expect(rt, "memory");
    }

    fn say_whether(&mut self, rt: &impl Abort, yes: bool) {
        self.say(rt, if yes { "yes" } else { "no" });
    }

    fn say_number(&mut self, rt: &impl Abort, number: u64) {
        let text = format!(in self.alloc; "{number}").expect(rt, "memory");
        self.say(rt, text.as_str());
    }

    fn say_row(&mut self, rt: &impl Abort, row: Option<Row>) {
        match row {
            None => self.say(rt, "-"),
            Some(Row { id, kind }) => {
                let kind = if kind.is_dir() { "directory" } else { "file" };
                let text = format!(in self.alloc; "{kind} {id}").expect(rt, "memory");
                self.say(rt, text.as_str());
            }
        }
    }

    fn make(&mut self, rt: &impl Abort, text: &str, id: u64, directory: bool) {
        let path = path(rt, self.alloc, text);
        let made = make(&mut self.tree, &path, id, directory).expect(rt, "memory");
        self.say_whether(rt, made);
    }

    fn remove(&mut self, rt: &impl Abort, text: &str) {
        let path = path(rt, self.alloc, text);
        remove(&mut self.tree, &path);
        let rows = self.tree.rows() as u64;
        self.say_number(rt, rows);
    }

    fn rename(&mut self, rt: &impl Abort, text: &str, to: &str) {
        let from = path(rt, self.alloc, text);
        let to = path(rt, self.alloc, to);
        let moved = rename(&mut self.tree, &from, &to).expect(rt, "memory");
        self.say_whether(rt, moved);
    }

    fn mark(&mut self, rt: &impl Abort, id: u64) {
        let key = KeyName::read(b"k").expect(rt, "a name");
        let marked = mark(&mut self.tree, id, key);
        self.say_whether(rt, marked);
    }

    fn find(&mut self, rt: &impl Abort, text: &str) {
        let row = self.tree.find(&path(rt, self.alloc, text));
        self.say_row(rt, row);
    }

    fn allow(&mut self, rt: &impl Abort, dir: u64) {
        self.snaps.reserve_allow().expect(rt, "memory");
        self.snaps.allow(dir).expect(rt, "memory");
        self.say_whether(rt, true);
    }

    fn disallow(&mut self, rt: &impl Abort, dir: u64) {
        let done = disallow(&mut self.snaps, dir);
        self.say_whether(rt, done);
    }

    fn disallow_below(&mut self, rt: &impl Abort, text: &str) {
        let path = path(rt, self.alloc, text);
        let done = disallow_below(&mut self.snaps, &self.tree, &path);
        self.say_whether(rt, done);
    }

    fn reserve(&mut self, rt: &impl Abort, dir: u64, text: &str) {
        let name = name(rt, self.alloc, text);
        self.snaps
            .reserve_take(&self.tree, dir, &name)
            .expect(rt, "memory");
        self.say_whether(rt, true);
    }

    /// Takes a snapshot of the directory with this id.
    pub fn take(&mut self, rt: &impl Abort, dir: u64, text: &str) {
        let name = name(rt, self.alloc, text);
        let taken = take(self.alloc, &mut self.snaps, &self.tree, dir, name).expect(rt, "memory");
        self.say_whether(rt, taken);
    }

    fn drop_snapshot(&mut self, rt: &impl Abort, dir: u64, text: &str) {
        self.snaps.remove(dir, &name(rt, self.alloc, text));
        self.count(rt, dir);
    }

    fn look(&mut self, rt: &impl Abort, dir: u64, text: &str, below: &str) {
        let name = name(rt, self.alloc, text);
        let row = self.snaps.look(dir, &name, &path(rt, self.alloc, below));
        self.say_row(rt, row);
    }

    /// Answers the names in a directory of a snapshot, with a slash after those of directories.
    fn list(&mut self, rt: &impl Abort, dir: u64, text: &str, below: &str) {
        let name = name(rt, self.alloc, text);
        let below = path(rt, self.alloc, below);
        let list = self.snaps.list(dir, &name, &below).expect(rt, "memory");
        match list {
            None => self.say(rt, "-"),
            Some(list) => {
                for child in list.as_slice() {
                    self.answers
                        .push_str(child.name.as_str())
                        .expect(rt, "memory");
                    let end = if child.directory { '/' } else { ' ' };
                    self.answers.push(end).expect(rt, "memory");
                }
                self.say(rt, "");
            }
        }
    }

    fn zone(&mut self, rt: &impl Abort, dir: u64, text: &str, below: &str) {
        let name = name(rt, self.alloc, text);
        let below = path(rt, self.alloc, below);
        match self.snaps.zone_in(dir, &name, &below) {
            None => self.say(rt, "-"),
            Some(depth) => self.say_number(rt, depth as u64),
        }
    }

    fn count(&mut self, rt: &impl Abort, dir: u64) {
        match self.snaps.count(dir) {
            None => self.say(rt, "-"),
            Some(count) => self.say_number(rt, count as u64),
        }
    }

    fn name_at(&mut self, rt: &impl Abort, dir: u64, at: u64) {
        let at = u32::try_from(at).expect(rt, "a place");
        let name = match self.snaps.name_at(dir, at) {
            None => String::from_str(self.alloc, "-").expect(rt, "memory"),
            Some(name) => String::from_str(self.alloc, name.as_str()).expect(rt, "memory"),
        };
        self.say(rt, name.as_str());
    }

    /// Answers whether a directory above the path may have snapshots, whether one below it may, and
    /// whether there is a snapshot of one at or below it.
    fn places(&mut self, rt: &impl Abort, text: &str) {
        let path = path(rt, self.alloc, text);
        let above = self.snaps.allowed_above(&self.tree, &path);
        let below = self.snaps.allowed_below(&self.tree, &path);
        let holds = self.snaps.holds(&self.tree, &path);
        self.say_whether(rt, above);
        self.say_whether(rt, below);
        self.say_whether(rt, holds);
    }

    fn of_tree(&mut self, rt: &impl Abort, words: &[&str]) -> bool {
        match words {
            ["mkdir", path, id] => self.make(rt, path, number(rt, id), true),
            ["file", path, id] => self.make(rt, path, number(rt, id), false),
            ["remove", path] => self.remove(rt, path),
            ["rename", path, to] => self.rename(rt, path, to),
            ["mark", id] => self.mark(rt, number(rt, id)),
            ["find", path] => self.find(rt, path),
            ["places", path] => self.places(rt, path),
            ["disallow-below", path] => self.disallow_below(rt, path),
            _ => return false,
        }
        true
    }

    fn of_directory(&mut self, rt: &impl Abort, words: &[&str]) -> bool {
        match words {
            ["allow", dir] => self.allow(rt, number(rt, dir)),
            ["disallow", dir] => self.disallow(rt, number(rt, dir)),
            ["count", dir] => self.count(rt, number(rt, dir)),
            ["name", dir, at] => self.name_at(rt, number(rt, dir), number(rt, at)),
            _ => return false,
        }
        true
    }

    fn of_snapshot(&mut self, rt: &impl Abort, words: &[&str]) -> bool {
        match words {
            ["reserve", dir, name] => self.reserve(rt, number(rt, dir), name),
            ["take", dir, name] => self.take(rt, number(rt, dir), name),
            ["drop", dir, name] => self.drop_snapshot(rt, number(rt, dir), name),
            ["look", dir, name, below] => self.look(rt, number(rt, dir), name, below),
            ["list", dir, name, below] => self.list(rt, number(rt, dir), name, below),
            ["zone", dir, name, below] => self.zone(rt, number(rt, dir), name, below),
            _ => return false,
        }
        true
    }

    /// Does what a line says. Fails the test if it says nothing that is known.
    pub fn line(&mut self, rt: &impl Abort, line: &str) {
        let words: Vec<&str> = line
            .split_whitespace()
            .collect(self.alloc)
            .expect(rt, "memory");
        let words = words.as_slice();
        if !self.of_tree(rt, words)
            && !self.of_directory(rt, words)
            && !self.of_snapshot(rt, words)
        {
            panic!(rt; "no such line");
        }
    }
}

/// Lines, each with its answers.
pub type Case = &'static [(&'static str, &'static str)];

fn assert_answers(rt: &impl Abort, line: &str, found: &str, wanted: &str) {
    assert_eq!(rt; found, wanted, "{line}");
}

/// Plays the lines of a case on an empty tree, and compares the answers.
pub fn assert_case(rt: &impl Abort, alloc: Global, case: Case) {
    let mut bench = Bench::new(rt, alloc);
    for (line, wanted) in case {
        bench.answers.clear();
        bench.line(rt, line);
        assert_answers(rt, line, bench.answers().trim_end(), wanted);
    }
}
