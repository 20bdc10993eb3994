//! Sessions, each with the report of its region.
use pb_object::Kind;

/// A region's kind, clients and size, the requests that are served in it, and its report.
pub type Row = (Kind, u32, u32, &'static str, &'static str);

/// Nothing was asked.
pub const EMPTY: [Row; 4] = [
    (
        Kind::Map,
        2,
        2,
        "",
        "kind map\nclients 2\nsize 2\nrounds 0\nclient 0 none\nclient 1 none\nregisters 0\n",
    ),
    (
        Kind::Stack,
        1,
        1,
        "",
        "kind stack\nclients 1\nsize 1\nrounds 0\nclient 0 none\nitems 0\n",
    ),
    (
        Kind::Heap,
        1,
        1024,
        "",
        "kind heap\nclients 1\nsize 1024\nrounds 0\nclient 0 none\nitems 0\n",
    ),
    (
        Kind::Queue,
        2,
        3,
        "",
        "kind queue\nclients 2\nsize 3\nrounds 0 0\nclient 0 none\nclient 1 none\nitems 0\n",
    ),
];

/// Objects with items.
pub const FULL: [Row; 5] = [
    (
        Kind::Map,
        1,
        4,
        "0 1 put 3 77\n0 2 get 3\n",
        "kind map\nclients 1\nsize 4\nrounds 2\nclient 0 2 get 3 is 77 1\nregisters 1\nregister 3 77 1\n",
    ),
    (
        Kind::Map,
        2,
        2,
        "1 1 put 1 9\n0 1 put 0 5\n0 2 put 0 6\n",
        "kind map\nclients 2\nsize 2\nrounds 3\nclient 0 2 put 0 6 was 5 2\nclient 1 1 put 1 9 was 0 1\nregisters 2\nregister 0 6 2\nregister 1 9 1\n",
    ),
    (
        Kind::Stack,
        2,
        2,
        "0 1 push 5\n1 1 push 4\n0 2 push 3\n",
        "kind stack\nclients 2\nsize 2\nrounds 3\nclient 0 2 push 3 full\nclient 1 1 push 4 depth 2\nitems 2\nitem 5\nitem 4\n",
    ),
    (
        Kind::Heap,
        1,
        3,
        "0 1 insert 9\n0 2 insert 3\n0 3 insert 9\n",
        "kind heap\nclients 1\nsize 3\nrounds 3\nclient 0 3 insert 9 size 3\nitems 3\nitem 3\nitem 9\nitem 9\n",
    ),
    (
        Kind::Queue,
        1,
        2,
        "0 1 put 8\n0 2 put 9\n",
        "kind queue\nclients 1\nsize 2\nrounds 2 0\nclient 0 2 put 9 at 1\nitems 2\nitem 8 0\nitem 9 1\n",
    ),
];

/// Items are put again into the places of those that were taken.
pub const WRAPPED: [Row; 2] = [
    (
        Kind::Queue,
        1,
        2,
        "0 1 put 1\n0 2 put 2\n0 3 put 3\n0 4 take\n0 5 put 4\n0 6 take\n",
        "kind queue\nclients 1\nsize 2\nrounds 4 2\nclient 0 6 take item 2 1\nitems 1\nitem 4 2\n",
    ),
    (
        Kind::Queue,
        2,
        2,
        "0 1 put 1\n0 2 put 2\n1 1 take\n0 3 put 3\n1 2 take\n0 4 put 4\n",
        "kind queue\nclients 2\nsize 2\nrounds 4 2\nclient 0 4 put 4 at 3\nclient 1 2 take item 2 1\nitems 2\nitem 3 2\nitem 4 3\n",
    ),
];
