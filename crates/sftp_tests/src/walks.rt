//! The longest walk, counted.
use sftp_tree::{Ticks, Tree};
use std::alloc::{AllocError, Global};
use std::test::Fail;

/// A path of 2,048 components: dots, and at the end so many times the link `l`.
fn path_with(alloc: Global, links: usize) -> Result<Vec<u8>, AllocError> {
    let dots = 2_048usize.saturating_sub(links);
    let mut path = Vec::new(alloc);
    for number in 0..2_048 {
        let component = if number < dots {
            b"./".as_slice()
        } else {
            b"l/".as_slice()
        };
        path.extend_from_slice(component)?;
    }
    Ok(path)
}

/// Whether the link `l` is made, which leads back to the root by the longest target.
fn links(alloc: Global, tree: &mut Tree) -> bool {
    match path_with(alloc, 0) {
        Ok(target) => {
            let made = tree.symlink(target.as_slice(), b"l");
            drop(target);
            made.is_ok()
        }
        Err(_) => false,
    }
}

/// Whether the path with so many links leads somewhere, and how many components the walk looks at.
fn walked(alloc: Global, tree: &Tree, links: usize) -> Option<(bool, u64)> {
    match path_with(alloc, links) {
        Ok(path) => {
            let mut ticks = Ticks::new();
            let place = tree.walk(path.as_slice(), true, &mut ticks);
            drop(path);
            let leads = place.is_ok();
            drop(place);
            Some((leads, ticks.count()))
        }
        Err(_) => None,
    }
}

/// A walk looks at the 2,048 components of its path, and at as many of each of the 40 links that it may follow.
#[test]
fn longest_walk(rt: HostRuntime) -> Result<(), Fail> {
    let mut tree = Tree::blank(rt.alloc())?;
    let linked = links(rt.alloc(), &mut tree);
    let most = walked(rt.alloc(), &tree, 40);
    let beyond = walked(rt.alloc(), &tree, 41);
    drop(tree);
    assert!(rt; linked && most == Some((true, 83_968)) && beyond == Some((false, 83_968)));
    Ok(())
}
