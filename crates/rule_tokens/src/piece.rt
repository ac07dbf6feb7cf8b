//! One piece of a template.

use text_bytes::Bytes;

/// A piece of a template: bytes as they are, or what replaces a substitution.
#[derive(Drop)]
pub enum Piece {
    /// These bytes, never none.
    Plain(Bytes),
    /// `$kernel`, `%k`: the kernel's name of the device.
    Kernel,
    /// `$number`, `%n`: the digits at the end of that name.
    Number,
    /// `$devpath`, `%p`: the path of the device.
    Devpath,
    /// `$id`, `%b`: the kernel's name of the selected device.
    Id,
    /// `$driver`: the driver of the selected device.
    Driver,
    /// `$attr{file}`, `%s{file}`: the attribute with this name.
    Attr(Bytes),
    /// `$env{key}`, `%E{key}`: the property with this name.
    Env(Bytes),
    /// `$major`, `%M`: the major number of the device.
    Major,
    /// `$minor`, `%m`: the minor number of the device.
    Minor,
    /// `$result`, `%c`: what the program wrote.
    Result,
    /// `$result{N}`, `%c{N}`: its N-th word, counted from 1.
    Word(u16),
    /// `$result{N+}`, `%c{N+}`: all from its N-th word on.
    From(u16),
    /// `$parent`, `%P`: the node name of the parent device.
    Parent,
    /// `$name`: the name that was assigned, else the kernel's.
    Name,
    /// `$links`: the links as they are now.
    Links,
    /// `$root`, `%r`: `/dev`.
    Root,
    /// `$sys`, `%S`: `/sys`.
    Sys,
    /// `$devnode`, `%N`: the path of the device's node.
    Devnode,
}
