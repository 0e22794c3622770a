// The limits of requests.

/// The most sectors that one read or write may name that waits in a queue.
pub const MAX_COUNT: u64 = 1024;

/// How many attempts a request has that is served alone.
pub const ATTEMPTS: u64 = 4;

/// How many attempts several have together, before each is served alone.
pub const ATTEMPTS_OF_A_GROUP: u64 = 2;
