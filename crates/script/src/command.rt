// What a line of a script asks for.
use text::word::Word;

// The numbers go to the calls as they are, however large; those that the shell itself bounds are within their bounds here.
#[derive(Clone, Copy)]
pub enum Command {
    // A blank line, or one that begins with `#`.
    Nothing,
    Call(Request),
    Tool(Tool),
}

// A call, on what is lent: changes come on a stream, look-ups in a view.
#[derive(Clone, Copy)]
pub enum Request {
    Format,
    Mount,
    Begin { unit: u64, window: u64 },
    End { unit: u64 },
    Flush { allowance: u64 },
    Conflicts { window: u64 },
    Edit { stream: u64, edit: Edit },
    Look { view: u64, look: Look },
}

#[derive(Clone, Copy)]
pub enum Edit {
    NewList,
    NewBlock {
        list: u64,
        predecessor: u64,
    },
    // The data stand as hex digits in the line; so many bytes of them are lent.
    Write {
        block: u64,
        lent: u64,
        race: u64,
        digits: Word,
    },
    DeleteBlock {
        block: u64,
    },
    DeleteList {
        list: u64,
    },
}

#[derive(Clone, Copy)]
pub enum Look {
    Read { block: u64, lent: u64 },
    Next { list: u64, predecessor: u64 },
    Inventory { lent: u64 },
    Page { lent: u64 },
}

// What the shell does itself.
#[derive(Clone, Copy)]
pub enum Tool {
    Card { length: u64, byte: u64 },
    Poke { at: u64, byte: u64 },
    Cut(Cut),
    Lend(Lend),
    Print(Print),
}

// A power cut, between calls or inside one.
#[derive(Clone, Copy)]
pub enum Cut {
    Between,
    Flush { allowance: u64, stores: u64 },
    Format { stores: u64 },
}

// How much is lent from now on.
#[derive(Clone, Copy)]
pub enum Lend {
    Card { most: u64 },
    Queue { most: u64 },
    Journal { most: u64 },
    All,
}

// What only prints.
#[derive(Clone, Copy)]
pub enum Print {
    Sum,
    Listing,
    Show { view: u64 },
}
