/// What a parser tells of the tree of its tokens, in preorder.
#[derive(Clone, Copy, Debug, PartialEq, Eq)]
pub enum Event {
    /// Here begins what the production with this number stands for.
    Open(u16),
    /// Here stands the next token.
    Shift,
    /// Here ends what the last production that was opened, and not closed, stands for.
    Close,
    /// The tree is complete.
    End,
}

/// Why a parser gives no event.
#[derive(Clone, Copy, Debug, PartialEq, Eq)]
pub enum ParseFault {
    /// No list that the start symbol derives goes on so.
    Syntax,
    /// Memory is wanted. The parser can't be used on.
    NoMemory,
}
