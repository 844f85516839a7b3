// Stores that show their layers, the topmost first.
use piles::join::Join;
use piles::window::Window;
use plates::plate::Plate;
use reels::reel::Reel;
use std::io;
use std::io::Write;
use stores::store::Store;

pub trait Layers: Store + Drop {
    fn show_layers(&self, out: &mut impl Write) -> io::Result<()>;
}

// The name of a layer and a letter for each of its cells.
// (No `Display`: what it prints has to be read from the store, which may refuse.)
fn show(out: &mut impl Write, name: &str, store: &impl Store) -> io::Result<()> {
    write!(out, "{name} ")?;
    for cell in 0..store.size() {
        match store.held(cell) {
            Ok(Some(_)) => out.write_all(b"#")?,
            _ => out.write_all(b".")?,
        }
    }
    out.write_all(b"\n")
}

impl Layers for Plate<'_> {
    fn show_layers(&self, out: &mut impl Write) -> io::Result<()> {
        show(out, "plate", self)
    }
}

impl Layers for Reel<'_> {
    fn show_layers(&self, out: &mut impl Write) -> io::Result<()> {
        show(out, "reel", self)
    }
}

impl<S: Layers> Layers for Window<S> {
    fn show_layers(&self, out: &mut impl Write) -> io::Result<()> {
        show(out, "window", self)?;
        self.below().show_layers(out)
    }
}

impl<S: Layers, T: Layers> Layers for Join<S, T> {
    fn show_layers(&self, out: &mut impl Write) -> io::Result<()> {
        show(out, "join", self)?;
        self.first().show_layers(out)?;
        self.second().show_layers(out)
    }
}
