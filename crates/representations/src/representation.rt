// What a field block is made of: representations, which borrow their texts from the block.
// The name of a literal field: that of the entry at an index, or a text of its own.
#[derive(Clone, Copy)]
pub enum Name<'a> {
    Index(u32),
    Text(&'a [u8]),
}

// An entry of the tables, a literal field that is added to the dynamic table or not, or a new size of that table.
#[derive(Clone, Copy)]
pub enum Representation<'a> {
    Indexed(u32),
    Literal {
        adds: bool,
        name: Name<'a>,
        value: &'a [u8],
    },
    Size(u32),
}
