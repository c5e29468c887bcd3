//! The workings of the page.

/// A script without which the page can be read, too: it finds reports, copies lines and unfolds all for the printer.
pub(crate) const WORKINGS: &str = r#"'use strict';
// The page can be read without this. It finds reports by words, kinds and types, copies lines, and unfolds all for the
// printer. What is looked for stands in the address, so that it can be handed on: page.html#words=pool&kind=reversal
(function () {
  const root = document.documentElement;
  const words = document.getElementById('words');
  const kind = document.getElementById('kind');
  const type = document.getElementById('type');
  const count = document.getElementById('count');
  const cards = Array.from(document.querySelectorAll('.card'));
  root.classList.add('works');

  function isWanted(card) {
    const each = words.value.toLowerCase().split(/\s+/).filter(Boolean);
    const text = card.textContent.toLowerCase();
    return each.every(word => text.includes(word)) && (kind.value === '' || card.dataset.kind === kind.value) &&
      (type.value === '' || (' ' + card.dataset.types + ' ').includes(' ' + type.value + ' '));
  }

  function find() {
    let shown = 0;
    for (const card of cards) {
      const wanted = isWanted(card);
      card.classList.toggle('hidden', !wanted);
      shown += wanted ? 1 : 0;
    }
    count.textContent = shown === cards.length ? '' : shown + ' of ' + cards.length + ' shown';
  }

  function remember() {
    const kept = new URLSearchParams();
    for (const field of [words, kind, type])
      if (field.value !== '')
        kept.set(field.id, field.value);
    history.replaceState(null, '', '#' + kept.toString());
  }

  function recall() {
    const kept = new URLSearchParams(location.hash.slice(1));
    for (const field of [words, kind, type])
      if (kept.has(field.id))
        field.value = kept.get(field.id);
    find();
  }

  async function copy(button) {
    const code = button.parentElement.querySelector('code');
    const before = button.textContent;
    try {
      await navigator.clipboard.writeText(code.textContent);
      button.textContent = 'Copied';
    } catch (error) {
      getSelection().selectAllChildren(code);
      button.textContent = 'Selected';
    }
    setTimeout(() => { button.textContent = before; }, 1500);
  }

  if (words) {
    for (const field of [words, kind, type])
      field.addEventListener('input', () => { find(); remember(); });
    addEventListener('hashchange', recall);
    recall();
  }
  // A card that a link leads to stands open.
  function unfold() {
    const card = /^#report-[0-9]+$/.test(location.hash) && document.querySelector(location.hash + ' > details');
    if (card)
      card.open = true;
  }
  addEventListener('hashchange', unfold);
  unfold();
  for (const button of document.querySelectorAll('.silence button'))
    button.addEventListener('click', () => copy(button));
  let folded = [];
  addEventListener('beforeprint', () => {
    folded = Array.from(document.querySelectorAll('details:not([open])'));
    folded.forEach(each => { each.open = true; });
  });
  addEventListener('afterprint', () => folded.forEach(each => { each.open = false; }));
})();
"#;
