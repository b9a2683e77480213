// Buffers of zeros. The `ensures` of each gives only its length, which lending it needs.
ghost use Rattle.std.specs.Prelude.{◌≡◌, length};

// For 64 records of 298 bytes: a name of 255, two numbers of 20, two tabs and an LF.
pub fn index_buffer() -> [u8; 19072]
    ensures { 19072 ≡ length result }
{
    [0; 19072]
}

// For all notes together, and for a text of the largest limit.
pub fn text_buffer() -> [u8; 1048576]
    ensures { 1048576 ≡ length result }
{
    [0; 1048576]
}

// For the book call.
pub fn work_buffer() -> [u8; 3670016]
    ensures { 3670016 ≡ length result }
{
    [0; 3670016]
}
