/// A place in the source: a module by its number, and there a line and a column.
///
/// Lines and columns count from 1, and columns are counted in characters. Places are ordered by
/// module, then line, then column.
#[derive(Clone, Copy, Debug, PartialEq, Eq, PartialOrd, Ord, Hash)]
pub struct Place {
    pub module: u32,
    pub line: u32,
    pub column: u32,
}
