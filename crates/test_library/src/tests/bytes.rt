mod framer;
mod reads_and_ends;
