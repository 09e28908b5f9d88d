//! What a line of a script asks for.
use anyhow::bail;
use leg::leg::Leg;
use ordinate::kind::Ordinate;
use script::words::Words;

/// A call on the outlet that was started last.
#[derive(Drop)]
pub enum Call<P> {
    Put(Leg<P>),
    Keep(usize),
    Get(usize),
    /// Its legs are to be written to a fresh card of so many octets.
    Rewrite(usize),
}

impl<P: Ordinate> Call<P> {
    pub fn from_text(line: &str) -> anyhow::Result<Call<P>> {
        let mut words = Words::new(line);
        let call = match words.next_word() {
            Some("put") => Call::Put(words.leg()?),
            Some("keep") => Call::Keep(words.number()?),
            Some("get") => Call::Get(words.number()?),
            Some("rewrite") => Call::Rewrite(words.number()?),
            _ => bail!("'{line}' is no line of a script"),
        };
        words.end()?;
        Ok(call)
    }
}
