// Which lines get no reply.
ghost use Rattle.std.specs.Prelude.{◌≡◌};
ghost use Rattle.rw_project.specs.Session.{is_silent, is_blank};

/// Whether a line is blank or a comment, and gets no reply.
pub fn is_silent(line: &[u8]) -> bool
    ensures { result ≡ is_silent line.now }
{
    is_blank(line) || line.first() == Some(&b'#')
}

fn is_blank(line: &[u8]) -> bool
    ensures { result ≡ is_blank line.now }
{
    line.iter()
        .all(|c| *c == b' ' || *c == b'\t' || *c == b'\r')
}
